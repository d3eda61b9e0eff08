//! Laws of the definitions. Each is the contract of a function that does nothing.
ghost use Rattle.std.specs.Prelude.{[], ◌≡◌, ◌==◌, ◌⊎◌, ◌≤◌, ℕ, List, filter, length, true, false, Some};
ghost use Rattle.td_plan.specs.declared.error.PlanError.{PlanError as AnyError};
ghost use Rattle.std.specs.List.{AllByRecursion, join_with_byte, slice_get};
ghost use Rattle.td_plan.specs.Text.{words};
ghost use Rattle.td_plan.specs.Lines.{Line, has_form, text_of, words_of};
ghost use Rattle.td_plan.specs.Blocks.{PlacedVertex, loops, read_loops_at, reading_loops_at, vertices};
ghost use Rattle.td_plan.specs.Blocks.{edge_at, edges, edges_to};
ghost use Rattle.td_plan.specs.Standing.{may_stand, AreAlike, HasFirst, IsBounded, StandsAmong, StandsWell};
ghost use Rattle.td_plan.specs.declared.vertex.Edge.{Edge as AnyEdge};
ghost use Rattle.td_plan.specs.Laid.{AreLaid};
ghost use Rattle.td_plan.specs.LookedUp.{IsLookedUp, IsSourceAt, IsEdgeAt};
ghost use Rattle.td_plan.specs.Tree.{tree_of, lines_of, placed_in, size, IsNumbered};
ghost use Rattle.td_plan.specs.Faults.{is_in_loop, IsPlan};
ghost use Rattle.td_plan.specs.Sources.{ReadEarlier};
ghost use Rattle.td_plan.specs.Placed.{IsPlacedTree};
ghost use Rattle.td_plan.specs.Texts.{PlanText, PlanFault};

/// A text spells one plan, or has one refusal, and never both.
pub fn one_answer()
    ensures either { (text : List ℕ) → ((p : List Line) × PlanText text p) ⊎ ((e : AnyError) × PlanFault text e) }
    ensures not_both { (text : List ℕ) (p : List Line) (e : AnyError) → PlanText text p → PlanFault text e → ⊥ }
    ensures one_plan { (text : List ℕ) (p q : List Line) → PlanText text p → PlanText text q → p ≡ q }
    ensures one_refusal { (text : List ℕ) (d e : AnyError) → PlanFault text d → PlanFault text e → d ≡ e }
{}

/// The words of a line tell the line, of every form.
pub fn lines_by_words()
    ensures apart { (a b : Line) → has_form a ≡ true → has_form b ≡ true → words_of a ≡ words_of b → a ≡ b }
    ensures read_back { (line : Line) → has_form line ≡ true → words (join_with_byte 32 (words_of line)) ≡ words_of line }
{}

/// The canonical text of a plan spells that plan and no other, in at most 3,948 bytes. These are 64 lines of vertices with 15
/// bytes, 128 sources with 3, and 186 loops with 14. At most three loops stand round a vertex, and none round an input or an
/// output: so there are at most 186. No plan reaches the bound, since its first ten numbers have one digit.
pub fn canonical_text()
    ensures spells { (plan : List Line) → IsPlan plan → PlanText (text_of plan) plan }
    ensures no_other { (p q : List Line) → IsPlan p → PlanText (text_of p) q → q ≡ p }
    ensures bytes { (plan : List Line) → IsPlan plan → length (text_of plan) ≤ 3948 }
{}

/// The tree of a plan: its lines are the plan's, its vertices are the plan's in the order of their numbers, each with
/// the loops in which it stands, and as many.
pub fn trees()
    ensures lines { (plan : List Line) → IsPlan plan → lines_of (tree_of plan) ≡ plan }
    ensures numbers { (plan : List Line) → IsPlan plan → IsNumbered 0 (tree_of plan) }
    ensures all { (plan : List Line) → IsPlan plan → placed_in [] 0 (tree_of plan) ≡ vertices plan }
    ensures size { (plan : List Line) → IsPlan plan → length (vertices plan) ≡ size (tree_of plan) }
{}

/// Each source of a plan's vertices, but for that of a feedback, comes before its reader, and is read on the block on
/// which its reader reads.
pub fn sources()
    ensures { (plan : List Line) → IsPlan plan → ReadEarlier [] (vertices plan) }
{}

/// Each source of a plan's vertices is read where its reader reads: that of an enter outside its loop and before it, that
/// of a feedback anywhere on its block, and any other on the block before its reader.
pub fn well_placed()
    ensures { (plan : List Line) → IsPlan plan → IsPlacedTree (tree_of plan) }
{}

/// Each vertex of a plan stands where its kind may, in a loop or outside all loops, and each loop has a bound from 1 to
/// 1,000.
pub fn stands_well()
    ensures { (plan : List Line) → IsPlan plan → StandsWell false (tree_of plan) }
{}

/// The same by number: where a vertex may stand by its kind, and the bounds of the loops round it.
pub fn stands_at()
    ensures kind { (plan : List Line) → IsPlan plan → (v : ℕ) (p : PlacedVertex)
        → slice_get (vertices plan) v ≡ Some p → may_stand (is_in_loop p.loops) p.vertex.kind ≡ true }
    ensures bounds { (plan : List Line) → IsPlan plan → (v : ℕ) (p : PlacedVertex)
        → slice_get (vertices plan) v ≡ Some p → AllByRecursion IsBounded p.loops }
{}

/// Each source of a vertex is read in the loops in which the vertex reads.
pub fn read_there()
    ensures { (plan : List Line) → IsPlan plan → (reader port source : ℕ) → IsSourceAt plan reader port source
        → read_loops_at plan source ≡ Some (reading_loops_at plan reader) }
{}

/// Look-ups by number find the vertex of that number, and `edge_at` the edge that leads to a port of a vertex.
pub fn look_ups()
    ensures vertices { (plan : List Line) (v : ℕ) (p : PlacedVertex) → IsPlan plan → slice_get (vertices plan) v ≡ Some p → IsLookedUp plan v p }
    ensures edges { (plan : List Line) (reader port source : ℕ) → IsPlan plan → IsSourceAt plan reader port source → IsEdgeAt plan reader port source }
{}

/// An edge of a plan stands at the number that `edge_at` tells, and leads from a source of its reader. Those that lead
/// to a vertex are those of its sources, by port.
pub fn edges_by_number()
    ensures number { (plan : List Line) → IsPlan plan → (i : ℕ) (e : AnyEdge) → slice_get (edges plan) i ≡ Some e
        → edge_at plan e.reader e.port ≡ i }
    ensures source { (plan : List Line) → IsPlan plan → (i : ℕ) (e : AnyEdge) → slice_get (edges plan) i ≡ Some e
        → IsSourceAt plan e.reader e.port e.source }
    ensures into { (plan : List Line) → IsPlan plan → (v : ℕ) (p : PlacedVertex) → slice_get (vertices plan) v ≡ Some p
        → filter (λ e. e.reader == v) (edges plan) ≡ edges_to p }
{}

/// Each vertex of a plan's tree is found by its number, where it stands in the tree, with the edges that lead to it. It goes
/// along the tree, as the meaning of a plan by turns does; `look_ups` goes by number.
pub fn laid()
    ensures { (plan : List Line) → IsPlan plan → AreLaid plan [] (tree_of plan) }
{}

/// The loops of a plan and the vertices that stand in them: each loop in which a vertex stands is one of the plan's, and
/// in each loop of the plan stands the vertex of its first number. The first numbers of the loops round a vertex, from
/// any of them outwards, tell these loops.
pub fn blocks()
    ensures among { (plan : List Line) → IsPlan plan → AllByRecursion (StandsAmong (loops plan)) (vertices plan) }
    ensures begun { (plan : List Line) → IsPlan plan → AllByRecursion (HasFirst (vertices plan)) (loops plan) }
    ensures alike { (plan : List Line) (v w : ℕ) (p q : PlacedVertex) → slice_get (vertices plan) v ≡ Some p
        → slice_get (vertices plan) w ≡ Some q → AreAlike p.loops q.loops }
{}
