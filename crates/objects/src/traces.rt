// What a record tells of an object that is made of places, as a set is of its keys and a map of its days.
ghost use Rattle.std.specs.Prelude.{◌≡◌, Bool, Some};
ghost use Rattle.objects.specs.declared.traces.Change.{Change};
ghost use Rattle.objects.specs.Traces.{cleared, looked};

// One place, and what it held before and after.
#[derive(Clone, Copy, Debug)]
pub struct Change<X> {
    pub place: u32,
    pub before: X,
    pub after: X,
}

// What a record that ran saw of the places, if anything, and the change that it made, if any.
#[derive(Clone, Copy, Debug)]
pub struct Trace<V, X> {
    pub saw: Option<V>,
    pub change: Option<Change<X>>,
}

// What is seen of places that hold values of X.
pub trait Sight<X> {
    ghost shown: { Self → Change X → Bool };

    // Whether a record that saw this saw the change: it would have been answered otherwise had the change never been made.
    fn shows(self, change: Change<X>) -> bool
        ensures { result ≡ shown self change };
}

impl<V, X> Trace<V, X> {
    // Of a record that changed nothing.
    pub fn looked(saw: Option<V>) -> Trace<V, X>
        ensures { result ≡ looked saw }
    {
        Trace { saw, change: None }
    }
}

// The test of an earlier record against a later one, by their traces: yes, unless the later one saw what the earlier one changed.
pub fn cleared<X: Copy, V: Sight<X> + Copy>(
    earlier: Option<Trace<V, X>>,
    later: Option<Trace<V, X>>,
) -> bool
    ensures { result ≡ cleared V.Sight.shown earlier later }
{
    let change = earlier.and_then(|trace| trace.change);
    let saw = later.and_then(|trace| trace.saw);
    match (change, saw) {
        (Some(change), Some(saw)) => !saw.shows(change),
        _ => true,
    }
}
