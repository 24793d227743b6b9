// The check of a configuration text, for C: include/dukhsare.h declares it.
#![tactic(auto)]

ghost use Rattle.std.specs.Prelude.{◌≡◌, ◌⊎◌};
ghost use Rattle.config.specs.Told.{packed, no_memory};
ghost use Rattle.config.specs.Verdict.{verdict};

use std::alloc::Global;

// What C gets for a text: 0, or the number that tells its refusal, or 4,294,967,295 for want of memory.
#[unsafe(no_mangle)]
pub extern "C" fn dukhsare_check(heap: Global, text: &[u8]) -> u32
    ensures { (result ≡ packed (verdict text.now)) ⊎ (result ≡ no_memory) }
{
    config::answer::dukhsare_check(heap, text)
}
