//! The fixes of a phone between two moments.

use crate::rows::PIECE;
use dewfelt_asked::{Place, Problem, Query, Refused, Word, read_rows, seconds_of};
use dewfelt_board::{LastFix, row_fixes};
use dewfelt_shown::Sight;
use jt_store::Row;
use std::alloc::{AllocError, Global};

// So many seconds a range has at most: 31 days (this project's own).
const RANGE_LIMIT: u64 = 31 * 86_400;

/// So many fixes an answer has at most (this project's own).
pub const FIXES_LIMIT: u32 = 20_000;

// Every row's number is below this one.
const NUMBERS: u64 = 1 << 47;

// So often a number below that one is halved at most.
const HALVINGS: usize = 48;

/// Which fixes of a phone are asked for. Moments are in seconds since 1970.
#[derive(Clone, Copy)]
pub struct Range {
    pub from: u64,
    /// The last moment of the range.
    pub to: u64,
    /// The fix behind which the page begins, where it is not the first page.
    pub after: Option<Place>,
    /// So many fixes at most.
    pub limit: usize,
}

impl Range {
    /// The range that a query asks for.
    pub fn read(alloc: Global, query: &Query) -> Result<Range, Refused> {
        let from = query.time(alloc, Word::From)?;
        let to = query.time(alloc, Word::To)?;
        if to < from || to - from > RANGE_LIMIT {
            return Err(Problem::range(alloc));
        }
        Ok(Range {
            from,
            to,
            after: query.after_place(alloc)?,
            limit: query.limit(alloc, FIXES_LIMIT, FIXES_LIMIT)?,
        })
    }

    fn has(&self, moment: u64) -> bool {
        self.from <= moment && moment <= self.to
    }

    // Whether a fix belongs to a page before.
    fn is_told(&self, fix: &LastFix) -> bool {
        match self.after {
            Some(Place { number, at }) => {
                fix.number < number || (fix.number == number && fix.at <= at)
            }
            None => false,
        }
    }
}

/// The fixes of a range, in the order of their rows.
#[derive(Drop)]
pub struct Track {
    pub range: Range,
    pub fixes: Vec<LastFix>,
    /// Whether more of the range follow.
    pub is_more: bool,
    /// Whether no moment that was met is before the one met before it. Where one is, fixes of the range may be missing.
    pub is_ordered: bool,
    // The last moment that was met.
    last: Option<u64>,
}

impl Track {
    fn new(alloc: Global, range: Range) -> Track {
        // What follows a fix of the range without a moment of its own belongs to the range as well.
        let last = match range.after {
            Some(_) => Some(range.from),
            None => None,
        };
        Track {
            range,
            fixes: Vec::new(alloc),
            is_more: false,
            is_ordered: true,
            last,
        }
    }

    // Meets a moment.
    fn meet(&mut self, moment: u64) {
        if let Some(last) = self.last {
            self.is_ordered = self.is_ordered && last <= moment;
        }
        self.last = Some(moment);
    }

    // Whether the moment that was met last is of the range. A fix without a moment belongs to the one before it.
    fn is_within(&self) -> bool {
        match self.last {
            Some(last) => self.range.has(last),
            None => false,
        }
    }

    // Takes the next fix.
    fn take(&mut self, fix: &LastFix) -> Result<(), AllocError> {
        if self.range.is_told(fix) {
            return Ok(());
        }
        if let Some(moment) = seconds_of(&fix.fixed.time) {
            self.meet(moment);
        }
        if !self.is_within() {
            return Ok(());
        }
        if self.fixes.len() >= self.range.limit {
            self.is_more = true;
            return Ok(());
        }
        Ok(self.fixes.push(*fix)?)
    }

    // Takes the fixes of a row.
    fn take_row(&mut self, alloc: Global, row: &Row) -> Result<(), AllocError> {
        let fixes = row_fixes(alloc, row.number, row.id, row.body.as_slice())?;
        for fix in &fixes {
            self.take(fix)?;
        }
        Ok(())
    }

    // Takes rows. The number behind them, where there are some.
    fn take_rows(&mut self, alloc: Global, rows: &[Row]) -> Result<Option<u64>, AllocError> {
        let mut next = None;
        for row in rows {
            self.take_row(alloc, row)?;
            next = Some(row.number.saturating_add(1));
        }
        Ok(next)
    }

    // Whether no more is to be looked at.
    fn is_over(&self) -> bool {
        match self.last {
            Some(last) => self.is_more || self.range.to < last,
            None => false,
        }
    }

    // Goes through the rows from a number on, to the end of the first piece that ends behind the range: so a single moment that is far
    // ahead ends nothing.
    fn walk<S: Sight>(
        &mut self,
        alloc: Global,
        sight: &S,
        digits: &[u8; 10],
        from: u64,
    ) -> Result<(), Refused> {
        let mut number = from;
        for _ in 0..u64::MAX {
            let rows = read_rows(alloc, sight.rows_from(alloc, digits, number, PIECE))?;
            match self.take_rows(alloc, rows.as_slice())? {
                Some(next) if rows.len() >= PIECE && !self.is_over() => number = next,
                _ => break,
            }
        }
        Ok(())
    }
}

// The last moment of a row, where a fix of it has one.
fn last_moment(alloc: Global, row: &Row) -> Result<Option<u64>, AllocError> {
    let mut last = None;
    let fixes = row_fixes(alloc, row.number, row.id, row.body.as_slice())?;
    for fix in &fixes {
        if let Some(moment) = seconds_of(&fix.fixed.time) {
            last = Some(moment);
        }
    }
    Ok(last)
}

// The first row that has a moment, as its number and its last moment.
fn first_moment(alloc: Global, rows: &[Row]) -> Result<Option<(u64, u64)>, AllocError> {
    for row in rows {
        if let Some(moment) = last_moment(alloc, row)? {
            return Ok(Some((row.number, moment)));
        }
    }
    Ok(None)
}

// The first row from a number on that has a moment, among so many.
fn moment_from<S: Sight>(
    alloc: Global,
    sight: &S,
    digits: &[u8; 10],
    number: u64,
) -> Result<Option<(u64, u64)>, Refused> {
    let row = read_rows(alloc, sight.rows_from(alloc, digits, number, 1))?;
    if let Some(found) = first_moment(alloc, row.as_slice())? {
        return Ok(Some(found));
    }
    let rows = read_rows(alloc, sight.rows_from(alloc, digits, number, PIECE))?;
    Ok(first_moment(alloc, rows.as_slice())?)
}

// From which number on rows of a range are looked for, found by halving: the rows below it end before the range, where moments do not
// go back. Rows without a moment count as within it.
fn first_number<S: Sight>(
    alloc: Global,
    sight: &S,
    digits: &[u8; 10],
    from: u64,
    last: Option<u64>,
) -> Result<u64, Refused> {
    let mut low: u64 = 0;
    let mut high = match last {
        Some(last) => last.saturating_add(1),
        None => NUMBERS,
    };
    for _ in 0..HALVINGS {
        if low >= high {
            break;
        }
        let middle = low + (high - low) / 2;
        match moment_from(alloc, sight, digits, middle)? {
            Some((number, moment)) if moment < from => low = number.max(middle).saturating_add(1),
            _ => high = middle,
        }
    }
    Ok(low)
}

/// The fixes of a phone in a range. `last` is the number of its last row, where that is known.
pub fn track_of<S: Sight>(
    alloc: Global,
    sight: &S,
    digits: &[u8; 10],
    range: Range,
    last: Option<u64>,
) -> Result<Track, Refused> {
    let number = match range.after {
        Some(after) => after.number,
        None => first_number(alloc, sight, digits, range.from, last)?,
    };
    let mut track = Track::new(alloc, range);
    track.walk(alloc, sight, digits, number)?;
    Ok(track)
}
