// Worked examples of the rules, proved.
#![tactic(auto)]

ghost use Rattle.std.specs.Prelude.{◌≡◌, length, All};
ghost use Rattle.worked_pile.specs.Examples.{Holds};
ghost use Rattle.worked_pile.specs.List.{examples};

// How many worked examples there are. Each one holds. One for this list and that of `worked` would take list and theorem as parameters, which the lemmas `judged` and `all_by_test` of `objects` do.
pub fn examples_hold() -> usize
    ensures count { result ≡ length examples }
    ensures hold { All Holds examples }
{
    11
}
