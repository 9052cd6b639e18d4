// The list of accesses that were made and refused.
ghost use Rattle.std.specs.Prelude.{◌≡◌, ◌<◌, true, vec_len, vec_capacity};
ghost use Rattle.clover_plain.specs.Plain.{grown};

use clover_rule::Access;

/// Puts an access at the end of the trace where it is to be listed. It takes no memory.
pub(crate) fn note(trace: &mut Vec<Access>, listed: bool, access: Access)
    requires room { listed ≡ true → vec_len trace.old < vec_capacity trace.old }
    ensures list { trace.new.items ≡ grown listed trace.old.items access }
{
    if listed && trace.push(access).is_err() {
        unreachable!()
    }
}
