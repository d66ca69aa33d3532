// A set of keys, a bit for each in four words.
ghost use Rattle.std.specs.Prelude.{◌≡◌};
ghost use Rattle.objects.specs.Kinds.{PlainWithdrawals};
ghost use Rattle.sets.specs.Kind.{key_set};
ghost use Rattle.sets.specs.Members.{empty};
ghost use Rattle.sets.specs.Words.{members_of};

// How many keys there are: 0 to 255.
pub const KEYS: u32 = 256;

const WORDS: usize = 4;

// Key k is bit k % 64 of word k / 64: no heap, since the memory of a controller is a stated budget.
#[derive(Drop)]
pub struct BitSet {
    pub(crate) words: [u64; WORDS],
}

impl BitSet {
    // No members. The second clause is of the kind, and stands here since every set of this sort comes from here.
    pub fn new() -> BitSet
        ensures empty { members_of result.words ≡ empty }
        ensures withdrawals { PlainWithdrawals key_set }
    {
        BitSet { words: [0; WORDS] }
    }
}
