// The pile that the program works on: counters under aliases on the left; on the right a set, and a dated map whose early days are closed.
ghost use Rattle.std.specs.Prelude.{◌≡◌, ◌∷◌, replicate};
ghost use Rattle.objects.specs.declared.records.Operation.{Operation};
ghost use Rattle.counters.specs.Counts.{zeros};
ghost use Rattle.sets.specs.Members.{empty as no_members};
ghost use Rattle.sets.specs.Words.{members_of};
ghost use Rattle.maps.specs.Days.{empty as no_days};
ghost use Rattle.juddrevan_pile.specs.Routes.{Reaches};

use counters::bank::CounterBank;
use layers::alias::{ALIASES, Alias, FIRST_ALIAS};
use layers::filter::Filtered;
use layers::lock::PeriodLock;
use layers::pair::Pair;
use maps::days::DatedMap;
use objects::codes::Family;
use sets::bits::BitSet;

pub type Pile = Pair<Filtered<Alias, CounterBank>, Pair<BitSet, Filtered<PeriodLock, DatedMap>>>;

// The first day that is open.
const FIRST_OPEN_DAY: u32 = 100;

// The first two aliases stand for key 3, the others for none.
pub fn new_pile() -> Pile
    ensures targets { result.left.filter.targets ≡ 3 ∷ 3 ∷ replicate 30 1000 }
    ensures day { result.right.right.filter.day ≡ 100 }
    ensures counts { result.left.below.counts ≡ zeros }
    ensures members { members_of result.right.left.words ≡ no_members }
    ensures days { result.right.right.below.days ≡ no_days }
{
    let mut targets = [FIRST_ALIAS; ALIASES];
    targets[0] = 3;
    targets[1] = 3;
    let bins = Filtered::new(Alias::new(targets), CounterBank::new());
    let days = Filtered::new(PeriodLock::new(FIRST_OPEN_DAY), DatedMap::new());
    Pair::new(bins, Pair::new(BitSet::new(), days))
}

// The unit that leads to an object of the pile: even is left, odd is right, halved on the way.
pub fn unit_of(family: Family) -> u16
    ensures { (o : Operation) → o.unit ≡ result → Reaches family o }
{
    match family {
        Family::Counter => 0,
        Family::Set => 1,
        Family::Map => 3,
    }
}
