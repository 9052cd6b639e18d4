// What each call costs, in accesses, by where its walk begins and by the number of links from there to the tail. A call
// of one value word stores and flushes two content words; each link costs a load and a raise.

use crate::support::run;
use crate::text::Text;
use clover_main::MemorySink;
use std::alloc::Global;
use std::test::Fail;

// A call of client 2 behind a tail, where `@` stands for the tail's tag; whether the tail is a tombstone; the reply; and
// what the call costs from a cursor at the tail, from the slot's shortcut that names it, and from the slot's root.
const CASES: [(&str, bool, &str, [u64; 3]); 9] = [
    ("get a", false, "found @ =x", [4, 5, 6]),
    ("get a", true, "absent", [3, 4, 5]),
    ("put a =y", false, "stored 0.17.0", [8, 9, 10]),
    ("put a =y", true, "stored 0.17.0", [8, 9, 10]),
    ("delete a", false, "deleted 0.17.0", [7, 8, 9]),
    ("delete a", true, "absent", [5, 6, 7]),
    ("swap a @ =y", false, "stored 0.17.0", [9, 10, 11]),
    ("swap a 0.17.0 =y", false, "differs @", [7, 8, 9]),
    ("swap a @ =y", true, "absent", [7, 8, 9]),
];

const COST_OF_A_LINK: u64 = 2;

// Where client 2's walk begins, as the place of its cost in a case.
const CURSOR: usize = 0;

const SHORTCUT: usize = 1;

const ROOT: usize = 2;

// A place to begin at, with the calls of client 1 that stand behind it, one for each link to the tail, and those before.
// The last of all makes a tombstone where the tail is to be one; each other one is a put.
#[derive(Clone, Copy)]
struct Scene {
    start: usize,
    before: u64,
    links: u64,
    dead: bool,
}

// Behind no link from the root stands the slot's first tombstone, which no call made. Behind one stands a put, since a
// delete of an absent key links nothing; so does a delete that has no put before it.
fn scene_of(start: usize, links: u64, dead: bool) -> Option<Scene> {
    let before = match (start, links) {
        (ROOT, 0) if !dead => return None,
        (ROOT, 1) if dead => return None,
        (ROOT, _) => 0,
        (_, 0) if dead => 2,
        _ => 1,
    };
    Some(Scene {
        start,
        before,
        links,
        dead,
    })
}

impl Scene {
    fn calls(&self) -> u64 {
        self.before.saturating_add(self.links)
    }

    // The buffers of client 1 are the first sixteen, the slot's first tombstone is in the next one, and the buffers of
    // client 2 come behind it.
    fn tail(&self) -> u64 {
        match self.calls() {
            0 => 16,
            calls => calls.saturating_sub(1),
        }
    }

    // A call of client 1. Behind a cursor it is answered. Behind a shortcut or the root its last access, the store of the
    // shortcut, is refused, so that the shortcut and client 1's own cursor stay where they are: each such call walks one
    // link further than the one before it.
    fn say_call(&self, text: &mut Text, call: u64) -> Result<(), Fail> {
        let deletes = self.dead && call.saturating_add(1) == self.calls();
        let task = if deletes {
            "1 delete a\n"
        } else {
            "1 put a =x\n"
        };
        if self.start == CURSOR || call < self.before {
            text.say("call ")?;
            return text.say(task);
        }
        let behind = call.saturating_sub(self.before);
        let own: u64 = if deletes { 6 } else { 7 };
        let start: u64 = if self.start == ROOT { 2 } else { 0 };
        text.say("begin ")?;
        text.say(task)?;
        text.say("step 1 ")?;
        text.number(
            own.saturating_add(start)
                .saturating_add(behind.saturating_mul(COST_OF_A_LINK)),
        )?;
        text.say("\nrefuse 1\nfinish 1\n")
    }

    // All that comes before client 2's call. Each client first asks for a put of which the first access is refused: by
    // then it has a batch of buffers and the name of the key, which client 1's put had bound. Where client 2's call is to
    // begin at a cursor, client 2 finds it by a get.
    fn script(&self, alloc: Global) -> Result<Text, Fail> {
        let mut text = Text::make(alloc);
        text.say(
            "pool nodes=1 buffers=64 slots=1 words=1 wear=9 clients=2 batch=16\n\
             begin 1 put a =x\nstep 1 10\nrefuse 1\nfinish 1\n\
             begin 2 put a =x\nstep 2 1\nrefuse 2\nfinish 2\n",
        )?;
        for call in 0..self.calls() {
            self.say_call(&mut text, call)?;
            if self.start == CURSOR && call.saturating_add(1) == self.before {
                text.say("call 2 get a\n")?;
            }
        }
        Ok(text)
    }
}

// A piece of a case, with the tail's tag in the place of `@`.
fn say_piece(text: &mut Text, piece: &str, tail: u64) -> Result<(), Fail> {
    match piece.split_once('@') {
        Some((front, back)) => {
            text.say(front)?;
            text.tag(tail)?;
            text.say(back)
        }
        None => text.say(piece),
    }
}

// The number that stands last in what a run printed: that of its accesses.
fn last_number(printed: &[u8]) -> u64 {
    let mut number: u64 = 0;
    let mut begins = true;
    for byte in printed {
        if byte.is_ascii_digit() {
            let digit = u64::from(byte.saturating_sub(b'0'));
            number = if begins {
                digit
            } else {
                number.saturating_mul(10).saturating_add(digit)
            };
        }
        begins = !byte.is_ascii_digit();
    }
    number
}

// How many accesses a run of the script makes, and what it prints.
fn accesses_of(alloc: Global, script: &Text) -> Result<(u64, MemorySink), Fail> {
    let input = script.input(alloc)?;
    let (_, sink) = run(alloc, &["replay"], input, &[], 65_536, &[])?;
    Ok((last_number(sink.bytes()), sink))
}

// How many accesses the call adds to those of its scene. None where the last entry of the history is not the call's,
// with this reply.
fn cost_of(alloc: Global, scene: &Scene, call: &str, reply: &str) -> Result<Option<u64>, Fail> {
    let tail = scene.tail();
    let mut script = scene.script(alloc)?;
    let (before, _) = accesses_of(alloc, &script)?;
    script.say("call 2 ")?;
    say_piece(&mut script, call, tail)?;
    script.say("\n")?;
    let (after, sink) = accesses_of(alloc, &script)?;
    let mut ending = Text::make(alloc);
    say_piece(&mut ending, call, tail)?;
    ending.say(" ")?;
    say_piece(&mut ending, reply, tail)?;
    ending.say("\naccesses ")?;
    ending.number(after)?;
    ending.say("\nend\n")?;
    if !sink.bytes().ends_with(ending.bytes()) {
        return Ok(None);
    }
    Ok(Some(after.saturating_sub(before)))
}

#[test]
fn each_call_costs_what_its_start_its_links_and_words_cost(rt: HostRuntime) -> Result<(), Fail> {
    let alloc = rt.alloc();
    for (call, dead, reply, costs) in CASES {
        for start in [CURSOR, SHORTCUT, ROOT] {
            for links in 0..6u64 {
                let Some(scene) = scene_of(start, links, dead) else {
                    continue;
                };
                let cost = costs[start % 3].saturating_add(links.saturating_mul(COST_OF_A_LINK));
                let made = cost_of(alloc, &scene, call, reply)?;
                assert_eq!(rt; made, Some(cost), "{call}, {links} links");
            }
        }
    }
    Ok(())
}
