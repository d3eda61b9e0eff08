//! Laws of the definitions. Each is the contract of a function that does nothing.
ghost use Rattle.std.specs.Prelude.{◌≡◌, ◌≤◌, ◌++◌, ◌∷◌, [], ℕ, List, true};
ghost use Rattle.td_plan.specs.Text.{words};
ghost use Rattle.td_closures.specs.declared.token.Token.TheVariants as tokens;
ghost use Rattle.td_closures.specs.declared.words.Scope.{Scope as AnyScope};
ghost use Rattle.td_closures.specs.Phrase.{Phrase, written, nested, bare, Spells};
ghost use Rattle.td_closures.specs.Words.{spaced, tokens_of};
ghost use Rattle.td_closures.specs.Canonical.{canonical, expression_text, closures_text, FitsLimits};
ghost use Rattle.td_closures.specs.Drafts.{Said};
ghost use Rattle.td_closures.specs.Spelled.{registers, is_named, AreSpellable};
ghost use Rattle.td_closures.specs.Texts.{ClosuresText};

/// The canonical text of an expression: its tokens have the fewest parentheses, and spell that expression.
pub fn canonical_expressions()
    ensures spells { (e : Phrase) → bare e ≡ e → nested (canonical e) ≤ 64 → Spells (written (canonical e)) e }
    ensures tokens { (scope : AnyScope) (n : ℕ) (e : Phrase) → n ≤ 8 → is_named scope n e ≡ true
        → tokens_of scope (registers n) (words (spaced (expression_text e))) ≡ written (canonical e) ++ tokens.End ∷ [] }
{}

/// The canonical text of closures spells them, where they can be spelled and no limit of a text is passed.
pub fn canonical_text()
    ensures { (closures : List Said) → AreSpellable closures → FitsLimits (closures_text closures) → ClosuresText (closures_text closures) closures }
{}

/// What a text spells can be spelled: so the canonical text of what was read is read as the same closures, unless it passes a limit.
pub fn spelled_again()
    ensures spellable { (text : List ℕ) (closures : List Said) → ClosuresText text closures → AreSpellable closures }
    ensures again { (text : List ℕ) (closures : List Said) → ClosuresText text closures → FitsLimits (closures_text closures) → ClosuresText (closures_text closures) closures }
{}
