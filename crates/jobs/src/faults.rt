// What a program prints for a refused sheet.
ghost use Rattle.std.specs.Prelude.{◌≡◌, IfOk, string_bytes};
ghost use Rattle.jobs.specs.Printed.{printed};

use sheet::Fault;
use std::alloc::{AllocError, Global};

// The two lines of a fault: the names of its values, then the values. Only memory can be lacking.
pub fn fault_lines(heap: Global, fault: Fault) -> Result<String, AllocError>
    ensures { IfOk result (λ text. string_bytes text ≡ printed fault) }
{
    // Printed by its parts, in the order of their names: of a `Display` for the whole the two lines would have to be put
    // together again in the proof.
    let Fault {
        refusal,
        layer,
        place,
    } = fault;
    format!(in heap; "layer refusal place\n{layer} {refusal} {place}\n")
}
