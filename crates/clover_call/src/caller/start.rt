// How a caller begins a call: on its slot, from a cursor where it has one, and one that writes with a tag of its
// client's stock.
ghost use Rattle.std.specs.Prelude.{◌≡◌, ◌≤◌, ◌*◌, length};
ghost use Rattle.clover_put.specs.Putting.{made_put};
ghost use Rattle.clover_call.specs.Beginning.{IsGiven, IsBegun, HasTag, ExpectsTag, size_of, given_number};
ghost use Rattle.clover_call.specs.declared.under.Underway.TheVariants.{Write as IsWrite};

use crate::under::Underway;
use clover_get::GetCall;
use clover_map::Call;
use clover_put::{Job, PutCall};
use clover_walk::Walk;
use clover_words::Tag;

/// How many bytes the value of a call has.
pub(super) fn length_of(asked: &Call) -> usize
    ensures { result ≡ size_of asked.now }
{
    match asked {
        Call::Get { .. } | Call::Delete { .. } => 0,
        Call::Put { value, .. } | Call::Swap { value, .. } => value.bytes.items().len(),
    }
}

// A call that writes these bytes, as yet without an access.
fn write(walk: Walk, own: Option<Tag>, job: Job, flags: u32, bytes: &[u8]) -> Underway
    requires own { IsGiven walk.pool own }
    requires fits { length bytes.now ≤ 8 * walk.pool.words }
    ensures { result ≡ IsWrite (made_put walk job (given_number own) (record { flags = flags; bytes = bytes.now })) }
{
    let Some(own) = own else { unreachable!() };
    match PutCall::make(walk, job, own, flags, bytes) {
        Ok(call) => Underway::Write(call),
        Err(_) => unreachable!(),
    }
}

/// What is under way once a call begins with this walk, which has made no step.
pub(super) fn call_on(walk: Walk, own: Option<Tag>, asked: &Call) -> Underway
    requires own { HasTag walk.pool own asked.now }
    requires expects { ExpectsTag asked.now }
    requires fits { size_of asked.now ≤ 8 * walk.pool.words }
    ensures { IsBegun walk (given_number own) asked.now result }
{
    match asked {
        Call::Get { .. } => Underway::Get(GetCall::make(walk)),
        Call::Put { key: _, value } => {
            write(walk, own, Job::Put, value.flags, value.bytes.items())
        }
        Call::Delete { .. } => write(walk, own, Job::Delete, 0, &[]),
        Call::Swap {
            key: _,
            expected,
            value,
        } => {
            let Some(expected) = Tag::of_number(*expected) else {
                unreachable!()
            };
            write(
                walk,
                own,
                Job::Swap(expected),
                value.flags,
                value.bytes.items(),
            )
        }
    }
}
