// The types that the definitions in specs/ name, and the numbers of docs/RULES.md. Of functions only the numbers of the answers
// are here: the crates above compute what specs/ defines, and theorems about it stand in proofs/.
#![tactic(auto)]

pub mod numbers;

// A variable's number, from 1.
#[derive(Clone, Copy)]
pub struct Var(pub u32);

// A literal: a variable with a sign. It is never 0.
#[derive(Clone, Copy)]
pub struct Lit(pub i32);

// A clause's number, from 1.
#[derive(Clone, Copy)]
pub struct ClauseNo(pub u32);

// "Sizes".
pub const MAX_TEXT: usize = 32768;

pub const MAX_VARS: u32 = 256;

pub const MAX_CLAUSES: u32 = 1024;

pub const MAX_ENTRIES: usize = 4096;

pub const MAX_CHUNK: u32 = 256;

pub const MAX_HELD: usize = 256;

// "Groups": how many there may be.
pub const MAX_GROUPS: usize = 128;

// "Choices already made": an entry list with the held literals behind it, and where its clauses start, with one more for the end.
pub const MAX_LIST: usize = MAX_ENTRIES + 2 * MAX_HELD;

pub const MAX_STARTS: usize = MAX_CLAUSES as usize + MAX_HELD + 1;

// "What comes back": the log of a run on as many variables as there may be, six numbers for each call.
pub const MAX_LOG: usize = 6 * (MAX_VARS as usize + 1);

// As many marks as there may be clauses.
pub const MAX_MARKS: usize = MAX_CLAUSES as usize;

// "The printed table": budget and chunk limit of its run, and the longest one.
pub const TABLE_BUDGET: u32 = 1000000;

pub const TABLE_CHUNK: u32 = 16;

pub const MAX_TABLE: usize = 9216;

// "The printed reason": its budget, and no less than the longest one.
pub const WHY_BUDGET: u32 = 1000000;

pub const MAX_WHY: usize = 32768;

// "The printed witness": its budget and chunk limit are those of the table. No two lines are longer.
pub const MAX_WITNESS: usize = 4096;

// "The printed groups": its budget and chunk limit are those of the table. No table of groups is longer.
pub const MAX_GROUPS_TABLE: usize = 4096;

// "The printed verdict": no line is longer.
pub const MAX_CLAIMS_LINE: usize = 64;

// What a clause is under some values ("Closing").
#[derive(Clone, Copy)]
pub enum ClauseState {
    // It has no true literal and no unset one.
    False,
    // It has no true literal and exactly one distinct unset one, which is held here.
    Unit(Lit),
    // It has a true literal.
    True,
    // It has no true literal and two distinct unset ones.
    Undecided,
}

// What a call of the search ends with ("What comes back": 1, 2, 3).
#[derive(Clone, Copy)]
pub enum Outcome {
    Model,
    NoModel,
    Stopped,
}

// The way a variable was settled ("What comes back": 0, 1, 2, 3).
#[derive(Clone, Copy)]
pub enum Way {
    Open,
    Compare,
    Flip,
    Chunk,
}

// What a run has to say of one variable: its status, the call that settled it, and the way.
#[derive(Clone, Copy)]
pub struct Record {
    pub status: u8,
    pub call: u32,
    pub way: Way,
}

// The answer of a reading, with its place where that is not fixed. Its number and place are read_number and read_place.
// Stays one enum and no Result: `reader_agrees`, `reader_refuses` and `Reads` speak of acceptance and refusals alike, and so do its numbers.
#[derive(Clone, Copy)]
pub enum ReadAnswer {
    Accepted,
    ShortBuffer,
    LongText,
    BadHeader(usize),
    LargeHeader(usize),
    BadToken(usize),
    TokenBehind(usize),
    TokenOverVars(usize),
    ManyTokens(usize),
    ShortText(usize),
}

// What a reading returns.
#[derive(Clone, Copy)]
pub struct Reading {
    pub answer: ReadAnswer,
    pub vars: u32,
    pub clauses: u32,
    pub entries: usize,
}

// The answer of a reading of groups, with its place where that is not fixed. Its number and place are groups_number and groups_place.
// Stays one enum and no Result: `groups_agree`, `groups_refusals` and `ReadsGroups` speak of acceptance and refusals alike, and so do its numbers.
#[derive(Clone, Copy)]
pub enum GroupsAnswer {
    Accepted,
    ShortBuffer,
    LongText,
    OverSizes(usize),
    BadToken(usize),
    TokenBehind(usize),
    TokenOverVars(usize),
    ShortText(usize),
    LongList,
    BadGroup(usize),
}

// What a reading of groups returns: variables, clauses and entries are those of the expanded list.
#[derive(Clone, Copy)]
pub struct GroupsReading {
    pub answer: GroupsAnswer,
    pub groups: u32,
    pub vars: u32,
    pub clauses: u32,
    pub entries: usize,
}

// Why an entry list is not taken, whoever is given one, with the place where that is not fixed. Its number and place are refusal_number
// and refusal_place.
#[derive(Clone, Copy)]
pub enum Refusal {
    ShortBuffer,
    BadLimits,
    BadList(usize),
    EntryOverVars(usize),
    BadLiteral(usize),
    NotFree,
    ManyHeld,
}

// The answer of a run. Its number and place are run_number and run_place.
// Stays one enum and no Result: `run_refusals`, `no_model_exactly` and `Runs` speak of its four ends alike, and so do its numbers.
#[derive(Clone, Copy)]
pub enum RunAnswer {
    Settled,
    NoModel,
    Stopped,
    Refused(Refusal),
}

// What a run returns.
#[derive(Clone, Copy)]
pub struct Report {
    pub answer: RunAnswer,
    pub calls: u32,
    pub tries: u32,
    pub forced: u32,
    pub free: u32,
}

// The answer to the question why a literal is forced. Its number and place are why_number and why_place.
// Stays one enum and no Result: `why_refused`, `why_no_model` and `Explains` speak of its five ends alike, and so do its numbers.
#[derive(Clone, Copy)]
pub enum WhyAnswer {
    // A set of clauses that alone forces the literal is marked.
    Kept,
    NoModel,
    Stopped,
    // A model has the literal false.
    NotForced,
    Refused(Refusal),
}

// What that question returns.
#[derive(Clone, Copy)]
pub struct WhyReport {
    pub answer: WhyAnswer,
    pub calls: u32,
    pub tries: u32,
}

// The answer of a closing. Its number and place are close_number and close_place.
// Stays one enum and no Result: `close_refusals`, `close_clash` and `Closes` speak of its three ends alike, and so do its numbers.
#[derive(Clone, Copy)]
pub enum CloseAnswer {
    // The closed set is written.
    Closed,
    // A clause became false.
    Clash,
    Refused(Refusal),
}

// What a closing returns: its rounds, and how many variables it set.
#[derive(Clone, Copy)]
pub struct CloseReport {
    pub answer: CloseAnswer,
    pub rounds: u32,
    pub set: u32,
}

// What the shorter file returns: the run's numbers, and how many bytes of it are written.
#[derive(Clone, Copy)]
pub struct ShorterReport {
    pub run: Report,
    pub length: usize,
}

// The answer to a file of claims. Its number and place are claims_number and claims_place.
// Stays one enum and no Result: `claims_accepted`, `claims_refusals` and `Checks` speak of acceptance and refusals alike, and so do its numbers.
#[derive(Clone, Copy)]
pub enum ClaimsAnswer {
    // The model is one, and so many claims hold.
    Accepted(u32),
    LongText,
    BadToken(usize),
    // The place of the first number at fault.
    Rejected(usize),
    Refused(Refusal),
}
