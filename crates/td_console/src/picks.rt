//! Lists of picks.
ghost use Rattle.std.specs.Prelude.{◌≡◌, ◌⊎◌, ◌<◌, ℕ, List, IfOk, IfErr, length};
ghost use Rattle.td_console.specs.Turns.{IsPicks};

use crate::faults::Fault;
use std::alloc::Global;
use td_plan::text::natural;

/// The picks of a list: numbers joined by commas, each decimal, up to 18446744073709551615, without leading zeros. Refusals:
/// `Picks` for any other text; `Memory`.
pub fn read_picks(alloc: Global, text: &str) -> Result<Vec<u64>, Fault>
    ensures ok { IfOk result (λ picks. IsPicks text.now picks.items) }
    ensures some { IfOk result (λ picks. 0 < length picks.items) }
    ensures err { IfErr result (λ f. (f ≡ Fault.Memory) ⊎ ((f ≡ Fault.Picks) × ((picks : List ℕ) → IsPicks text.now picks → ⊥))) }
{
    let mut picks = Vec::new(alloc);
    for word in text.split(',') {
        let Some(pick) = natural(word) else {
            return Err(Fault::Picks);
        };
        picks.push(pick)?;
    }
    Ok(picks)
}
