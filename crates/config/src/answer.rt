// The answer to a configuration text, as one number for C and as a line to print.
ghost use Rattle.std.specs.Prelude.{◌≡◌, ◌⊎◌, IfOk, string_bytes};
ghost use Rattle.config.specs.Told.{Small, packed_fault, packed, no_memory, ok_line, refused_line, shown};
ghost use Rattle.config.specs.Verdict.{verdict};

use crate::check::check;
use crate::fault::ConfigFault;
use std::alloc::{AllocError, Global};

// The number that tells a clash.
const CLASH: u32 = 4;

// The two lines are functions, and the answer has no `Display`: want of memory prints nothing.
fn accepted(heap: Global, parents: usize, rows: usize) -> Result<String, AllocError>
    ensures { IfOk result (λ s. string_bytes s ≡ ok_line parents rows) }
{
    format!(in heap; "ok parents {parents} rows {rows}")
}

fn refused(heap: Global, number: u32, line: u32, field: u32) -> Result<String, AllocError>
    ensures { IfOk result (λ s. string_bytes s ≡ refused_line number line field) }
{
    format!(in heap; "refused {number} line {line} field {field}")
}

// The line that is printed for a text.
pub fn answer_line(heap: Global, text: &[u8]) -> Result<String, AllocError>
    ensures { IfOk result (λ s. string_bytes s ≡ shown (verdict text.now)) }
{
    match check(heap, text) {
        Ok(config) => accepted(heap, config.rates().len(), config.rows().len()),
        Err(ConfigFault::Text(fault)) => refused(
            heap,
            fault.refusal.number(),
            fault.line,
            fault.field,
        ),
        Err(ConfigFault::Clash { line }) => refused(heap, CLASH, line, 0),
        Err(ConfigFault::Memory) => Err(AllocError),
    }
}

// The number that tells a refusal: refusal × 10,000,000 + line × 100 + field, or the largest one for want of memory.
fn pack(fault: ConfigFault) -> u32
    requires { Small fault }
    ensures { result ≡ packed_fault fault }
{
    match fault {
        ConfigFault::Text(fault) => fault.refusal.number() * 10_000_000
            + fault.line * 100
            + fault.field,
        ConfigFault::Clash { line } => CLASH * 10_000_000 + line * 100,
        ConfigFault::Memory => u32::MAX,
    }
}

// What C gets for a text: 0, or the number that tells its refusal, or 4,294,967,295 for want of memory.
// The crate config_c exports it to C, as `uint32_t dukhsare_check(const uint8_t *text, size_t length)`.
pub fn dukhsare_check(heap: Global, text: &[u8]) -> u32
    ensures { (result ≡ packed (verdict text.now)) ⊎ (result ≡ no_memory) }
{
    match check(heap, text) {
        Ok(_) => 0,
        Err(fault) => pack(fault),
    }
}
