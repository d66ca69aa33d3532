// Other names for keys: key 1,000 + i stands for target i.
ghost use Rattle.std.specs.Prelude.{◌≡◌, ℕ, List};
ghost use Rattle.layers.specs.Aliases.{aliased};

use crate::filter::Filter;
use objects::records::{Answer, Operation};

// How many aliases there are, and the first of them: keys below it are keys of the object itself.
pub const ALIASES: usize = 32;

pub const FIRST_ALIAS: u32 = 1000;

#[derive(Drop)]
pub struct Alias {
    targets: [u32; ALIASES],
}

impl Alias {
    // A target from 1,000 on is no key of the object: its alias is answered bad. By the rules a target is any number, so it is no option.
    pub fn new(targets: [u32; ALIASES]) -> Alias
        ensures { result.targets ≡ targets }
    {
        Alias { targets }
    }
}

// An alias becomes an index by `as`: there is no `From` for that, and `TryFrom` would bring in a failure that cannot occur, no plainer.
impl Filter for Alias {
    ghost Fixed = { List ℕ };

    ghost fixed = { λ a. a.targets };

    ghost passes = { aliased };

    fn pass(&self, operation: Operation) -> Result<Operation, Answer> {
        let Some(alias) = operation.key.checked_sub(FIRST_ALIAS) else {
            return Ok(operation);
        };
        match self.targets.get(alias as usize) {
            Some(&key) if key < FIRST_ALIAS => Ok(Operation { key, ..operation }),
            _ => Err(Answer::BAD),
        }
    }
}
