//! The list of all codes, which `tools/faults` makes from docs/FAULTS.md.

/// A line for each code, with its name.
pub const LISTING: &str = "F01 CannotRead
F02 CannotWrite
E01 Syntax
E02 NumberTooLarge
E03 NotAscii
E04 TooLong
E05 LongRun
E10 DuplicateName
E11 UnknownName
E12 UnknownNode
E13 TypeMismatch
E14 WrongArity
E15 Undefined
E16 DefinedTwice
E17 RecursiveNode
E18 NoMain
E19 BadMerge
E20 ClockMismatch
E21 NotAClock
E22 ClockedParameter
E23 HiddenClock
E30 MaybeNil
E31 CurrentMayBeNil
E40 Cycle
E50 TooLarge
P01 NotToml
P02 BadKey
P03 UnknownSite
P04 UnknownVariable
P05 Unplaced
P06 DuplicateSite
P07 OutOfRange
P08 SplitCall
T01 BadHeader
T02 BadRow
T03 BadValue
T04 TooLong
S01 BadSchedule
S02 LongSchedule
R1 Fault
A1 Violated
R2 OutOfMemory
R3 LinkLost
R4 NoThread
";
