// What can go wrong.
use fields::place::BitPlace;

#[derive(Clone, Copy, Debug, PartialEq, Eq)]
pub enum Kind {
    // a buffer, file or input over the limit, or a buffer or table of another length than before
    WrongLength = 1,
    // the output is too short
    OutputTooShort = 2,
    // a top flag bit is set
    ReservedFlag = 3,
    // name or extra too long, or a zero in a given name
    BadNameOrExtra = 4,
    // no channel, over 32, or not one where only one may be
    ChannelCount = 5,
    // a channel setting outside the rules
    BadSetting = 6,
    // the word has no form
    NoForm = 7,
    // a section without words, or one that is not there
    NoSection = 8,
    // too many raw bytes, sections or words of a block
    OverLimit = 9,
    // over 7 leftovers given, or a count of 0 read
    LeftoverCount = 10,
    // the input ends inside a field or form
    InputEnds = 11,
    // the first two bytes are not those of a slim file
    NotSlim = 12,
    // raw bytes end inside a word
    PartialWord = 13,
    // the size field is wrong
    WrongSize = 14,
    // a pointer is wrong
    WrongPointer = 15,
    // a dead form
    DeadForm = 16,
    // a tag that there is not
    BadTag = 17,
    // bytes behind the end
    TrailingBytes = 18,
}

#[derive(Clone, Copy, Debug, PartialEq, Eq)]
pub struct Fault {
    pub kind: Kind,
    pub place: BitPlace,
}
