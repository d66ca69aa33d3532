// What is asked of an object, and what it answers. Each field takes every value of its type: what a value means is the object's rule.

#[derive(Clone, Copy, PartialEq, Eq, Debug)]
pub struct Operation {
    pub code: u8,
    pub unit: u16,
    pub key: u32,
    pub amount: i64,
}

#[derive(Clone, Copy, PartialEq, Eq, Debug)] // `==` compares all three fields, as the rules do
pub struct Answer {
    pub tag: u8,
    pub place: u32,
    pub value: i64,
}

// An operation with an answer: what was posted, or what somebody says was posted.
#[derive(Clone, Copy, PartialEq, Eq, Debug)]
pub struct Record {
    pub operation: Operation,
    pub answer: Answer,
}
