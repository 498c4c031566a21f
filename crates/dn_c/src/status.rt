// What a call returns to C.
ghost use Rattle.std.specs.Prelude.{◌≡◌};
ghost use Rattle.dn_c.specs.State.Statuses.{fine, wrong_call, refused_with, fine_count, wrong_count};

use dn_instance::{Place, Refusal};

/// What a call returns: that it did what its name says, or why not.
#[repr(C)]
#[derive(Clone, Copy, PartialEq, Eq, Drop)]
pub struct Status {
    /// 0, the number of a refusal, or 40 for a call that the handle is not for.
    pub code: u8,
    /// 1 if `line` is the refused line, 2 if the text is refused at its end, and 0 otherwise.
    pub place: u8,
    /// The refused line, counted from 1, or 0.
    pub line: u64,
}

/// Returns the status of a call that did what its name says.
pub fn fine() -> Status
    ensures { result ≡ fine }
{
    Status {
        code: 0,
        place: 0,
        line: 0,
    }
}

/// Returns the status of a call that the handle is not for.
pub fn wrong_call() -> Status
    ensures { result ≡ wrong_call }
{
    Status {
        code: 40,
        place: 0,
        line: 0,
    }
}

/// Returns the status of a refusal.
pub fn refused_with(refusal: Refusal) -> Status
    ensures { result ≡ refused_with refusal }
{
    let code = refusal.number();
    match refusal {
        Refusal::Text {
            place: Place::Line(line),
            ..
        } => Status {
            code,
            place: 1,
            line,
        },
        Refusal::Text {
            place: Place::End,
            ..
        } => Status {
            code,
            place: 2,
            line: 0,
        },
        _ => Status {
            code,
            place: 0,
            line: 0,
        },
    }
}

/// How many a call copied or counted, or that the handle is not for the call.
#[repr(C)]
#[derive(Clone, Copy, Drop)]
pub struct Count {
    /// How many; 0 unless `code` is 0.
    pub count: usize,
    /// 0, or 34 if there are 2^64 or more, or 40 for a call that the handle is not for.
    pub code: u8,
}

/// Returns the count of a call that did what its name says.
pub fn fine_count(count: usize) -> Count
    ensures { result ≡ fine_count count }
{
    Count { count, code: 0 }
}

/// Returns the count of a call that the handle is not for.
pub fn wrong_count() -> Count
    ensures { result ≡ wrong_count }
{
    Count { count: 0, code: 40 }
}
