// What a line says, with its key, its value and its names still as the line spells them. The first reading of a script
// makes no more of a line, and takes no memory for it; the second reading decodes them. So a line is small until it is run.
ghost use Rattle.std.specs.Prelude.{◌≡◌, ℕ, List, IfOk};
ghost use Rattle.clover_script.specs.Line.{cut_value, task_of, kept_task, Spoken, IsSpoken, kept_line};
ghost use Rattle.clover_script.specs.Spelling.{IsKeyText, value_with, IsValueText, call_said, HasBytes, asked_said, HasTaskBytes, Says};

use crate::coded::decode_into;
use crate::line::{Line, Task};
use crate::spelled_choice::{ChoiceText, CutText};
use clover_list::OutOfMemory;
use clover_map::{Bytes, Call, Key, Value};
use std::alloc::Global;

/// How many bytes a key may have.
pub const LONGEST_KEY: usize = 250;

/// A key as a line spells it.
#[derive(Clone, Copy)]
pub struct KeyText<'a> {
    /// The coded text of its bytes.
    pub text: &'a [u8],
    /// How many bytes that text stands for, 1 to 250.
    pub length: usize,
}

/// A value as a line spells it.
#[derive(Clone, Copy)]
pub struct ValueText<'a> {
    /// The coded text of its bytes.
    pub text: &'a [u8],
    /// How many bytes that text stands for.
    pub written: u32,
}

/// A client's call as a line spells it.
#[derive(Drop)]
pub enum CallText<'a> {
    Get {
        key: KeyText<'a>,
    },
    Put {
        key: KeyText<'a>,
        value: ValueText<'a>,
    },
    Delete {
        key: KeyText<'a>,
    },
    Swap {
        key: KeyText<'a>,
        expected: u64,
        value: ValueText<'a>,
    },
}

/// What an actor is asked to do, as a line spells it; `Task` says what each of them is.
#[derive(Drop)]
pub enum TaskText<'a> {
    Client(CallText<'a>),
    Recycle(u32),
    Sweep,
}

/// A line behind the pool line, as it is spelled; `Line` says what each of them asks.
#[derive(Drop)]
pub enum LineText<'a> {
    Begin { actor: u32, task: TaskText<'a> },
    Step { actor: u32, times: u64 },
    Finish { actor: u32 },
    Call { actor: u32, task: TaskText<'a> },
    Refuse { actor: u32 },
    Cut(CutText<'a>),
    Image(ChoiceText<'a>),
}

impl KeyText<'_> {
    /// The key.
    fn decode(&self) -> Key
        requires { (key : List ℕ) × IsKeyText self.now key }
        ensures { (key : List ℕ) → IsKeyText self.now key → result ≡ key }
    {
        let mut room = [0; LONGEST_KEY];
        decode_into(self.text, &mut room[..self.length]);
        match Key::of(&room[..self.length]) {
            Ok(key) => key,
            Err(_) => unreachable!(),
        }
    }
}

impl ValueText<'_> {
    /// The value as a call keeps it.
    fn decode(&self, alloc: Global) -> Result<Value, OutOfMemory>
        ensures { IfOk result (λ value. (bytes : List ℕ) → IsValueText self.now bytes → value ≡ cut_value (value_with bytes)) }
    {
        let mut bytes = vec![in alloc; 0; self.written as usize]?;
        decode_into(self.text, &mut bytes);
        Ok(Value {
            flags: 0,
            bytes: Bytes::front_of(bytes),
        })
    }
}

impl CallText<'_> {
    /// The call as a task, its key and its value decoded.
    fn decode(self, alloc: Global) -> Result<Task, OutOfMemory>
        requires { (key : List ℕ) × (value : List ℕ) × HasBytes self key value }
        ensures { IfOk result (λ task. (key : List ℕ) (value : List ℕ) → HasBytes self.entry key value → task ≡ task_of (call_said self.entry key value)) }
    {
        let (call, written) = match self {
            CallText::Get { key } => (Call::Get { key: key.decode() }, 0),
            CallText::Delete { key } => (Call::Delete { key: key.decode() }, 0),
            CallText::Put { key, value } => (
                Call::Put {
                    key: key.decode(),
                    value: value.decode(alloc)?,
                },
                value.written,
            ),
            CallText::Swap {
                key,
                expected,
                value,
            } => (
                Call::Swap {
                    key: key.decode(),
                    expected,
                    value: value.decode(alloc)?,
                },
                value.written,
            ),
        };
        Ok(Task::Client { call, written })
    }
}

impl TaskText<'_> {
    /// The task, its key and its value decoded.
    fn decode(self, alloc: Global) -> Result<Task, OutOfMemory>
        requires { (key : List ℕ) × (value : List ℕ) × HasTaskBytes self key value }
        ensures { IfOk result (λ task. (key : List ℕ) (value : List ℕ) → HasTaskBytes self.entry key value → task ≡ kept_task (asked_said self.entry key value)) }
    {
        match self {
            TaskText::Client(call) => call.decode(alloc),
            TaskText::Recycle(slot) => Ok(Task::Recycle(slot)),
            TaskText::Sweep => Ok(Task::Sweep),
        }
    }
}

impl LineText<'_> {
    /// The line, its key, its value and its names decoded. `OutOfMemory` for want of memory alone.
    pub fn decode(self, alloc: Global) -> Result<Line, OutOfMemory>
        requires { (spoken : Spoken) × IsSpoken spoken × Says self spoken }
        ensures { IfOk result (λ line. (spoken : Spoken) → IsSpoken spoken → Says self.entry spoken → line ≡ kept_line spoken) }
    {
        Ok(match self {
            LineText::Begin { actor, task } => {
                let task = task.decode(alloc)?;
                Line::Begin { actor, task }
            }
            LineText::Step { actor, times } => Line::Step { actor, times },
            LineText::Finish { actor } => Line::Finish { actor },
            LineText::Call { actor, task } => {
                let task = task.decode(alloc)?;
                Line::Call { actor, task }
            }
            LineText::Refuse { actor } => Line::Refuse { actor },
            LineText::Cut(cut) => {
                let (choice, more) = cut.decode(alloc)?;
                Line::Cut { choice, more }
            }
            LineText::Image(choice) => {
                let choice = choice.decode(alloc)?;
                Line::Image { choice }
            }
        })
    }
}
