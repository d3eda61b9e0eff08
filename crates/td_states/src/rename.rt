// Vertices by other numbers.
ghost use Rattle.std.specs.Prelude.{◌≡◌, ◌⊎◌, ◌==◌, ◌∷◌, [], ◌<◌, List, IfOk, IfErr};
ghost use Rattle.std.specs.List.{slice_split};
ghost use Rattle.std.specs.Option.{option_map_or};
ghost use Rattle.td_states.specs.declared.rename.Rename.{Rename as AnyRename};
ghost use Rattle.td_states.specs.Renames.{rename_of, IsRenames};
ghost use Rattle.td_states.specs.Spelled.{renamed_vertex};

use crate::error::StatesError;
use std::alloc::Global;
use td_plan::text::natural;

/// The states that the text has of the vertex `from` become those of the vertex `to`.
#[derive(Clone, Copy, Debug, PartialEq, Eq)]
pub struct Rename {
    pub from: u64,
    pub to: u64,
}

/// The vertex for one, by the first renaming of it, or that one itself.
pub(crate) fn renamed(renames: &[Rename], vertex: u64) -> u64
    ensures { result ≡ renamed_vertex renames.now vertex }
{
    for rename in renames {
        if rename.from == vertex {
            return rename.to;
        }
    }
    vertex
}

/// The renamings of a list: pairs `V=W` joined by commas, of decimal numbers without leading zeros. Refusals: `Map` for any other text;
/// `Memory`.
pub fn read_renames(alloc: Global, text: &str) -> Result<Vec<Rename>, StatesError>
    ensures ok { IfOk result (λ renames. IsRenames text.now renames.items) }
    ensures err { IfErr result (λ e. (e ≡ StatesError.Memory) ⊎ ((e ≡ StatesError.Map) × ((renames : List AnyRename) → IsRenames text.now renames → ⊥))) }
{
    let mut renames = Vec::new(alloc);
    for pair in text.split(',') {
        let Some(rename) = rename_of(pair) else {
            return Err(StatesError::Map);
        };
        renames.push(rename)?;
    }
    Ok(renames)
}

/// The renaming that `V=W` writes.
fn rename_of(pair: &str) -> Option<Rename>
    ensures { result ≡ rename_of pair.now }
{
    let (from, rest) = cut(pair);
    let (to, more) = cut(rest?);
    if more.is_some() {
        return None;
    }
    let from = natural(from)?;
    let to = natural(to)?;
    Some(Rename { from, to })
}

/// What stands before the first `=`, and what stands after it, if it is there.
fn cut(text: &str) -> (&str, Option<&str>)
    ensures { slice_split (λ b. b == 61) text.now ≡ result.0.now ∷ option_map_or (λ rest. slice_split (λ b. b == 61) rest.now) result.1 [] }
{
    match text.split_once('=') {
        Some((before, after)) => (before, Some(after)),
        None => (text, None),
    }
}
