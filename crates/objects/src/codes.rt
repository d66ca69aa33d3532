// The codes of operations, and what the rules say of each: one table, which the code of the kinds reads.
ghost use Rattle.std.specs.Prelude.{◌≡◌};
ghost use Rattle.objects.specs.Codes.{code_rule, own_rule};

use crate::records::Operation;

// Numbers and no enum: every number is a legal code, and each kind decodes its own into an enum.
pub const ADD: u8 = 1;

pub const TAKE: u8 = 2;

pub const READ: u8 = 3;

pub const INSERT: u8 = 4;

pub const REMOVE: u8 = 5;

pub const HAS: u8 = 6;

pub const SIZE: u8 = 7;

pub const PUT: u8 = 8;

pub const DROP: u8 = 9;

pub const FIND: u8 = 10;

// The bottom objects, each with codes of its own.
#[derive(Clone, Copy, PartialEq, Eq, Debug)]
pub enum Family {
    Counter,
    Set,
    Map,
}

#[derive(Clone, Copy, PartialEq, Eq, Debug)]
pub struct CodeRule {
    pub code: u8,
    pub family: Family,
    pub last_key: u32,
    pub changes: bool,
}

const LAST_COUNTER: u32 = 31;

const LAST_MEMBER: u32 = 255;

const LAST_DAY: u32 = 511;

const EVERY_KEY: u32 = u32::MAX;

// Each code with its family, the last key that it takes, and whether it changes the state. Ten structs written out would not read as a table. A constant would be laid out anew at each call.
static CODES: [(u8, Family, u32, bool); 10] = [
    (ADD, Family::Counter, LAST_COUNTER, true),
    (TAKE, Family::Counter, LAST_COUNTER, true),
    (READ, Family::Counter, LAST_COUNTER, false),
    (INSERT, Family::Set, LAST_MEMBER, true),
    (REMOVE, Family::Set, LAST_MEMBER, true),
    (HAS, Family::Set, LAST_MEMBER, false),
    (SIZE, Family::Set, EVERY_KEY, false),
    (PUT, Family::Map, LAST_DAY, true),
    (DROP, Family::Map, LAST_DAY, true),
    (FIND, Family::Map, LAST_DAY, false),
];

// The row of a code; none for a number that is no code.
pub fn rule_of(code: u8) -> Option<CodeRule>
    ensures { result ≡ code_rule code }
{
    if !(ADD..=FIND).contains(&code) {
        return None;
    }
    let (code, family, last_key, changes) = CODES[usize::from(code) - 1];
    Some(CodeRule {
        code,
        family,
        last_key,
        changes,
    })
}

// The row of an operation that a bottom object of this family knows: the unit is 0, the code is one of the family's, and the key is one that it takes. None of another.
pub fn own_rule(family: Family, operation: &Operation) -> Option<CodeRule>
    ensures { result ≡ own_rule family operation.now }
{
    let row = rule_of(operation.code)?;
    let own = operation.unit == 0 && row.family == family && operation.key <= row.last_key;
    own.then_some(row)
}
