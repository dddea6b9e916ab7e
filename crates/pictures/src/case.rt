// Runs a case: makes what is lent, makes the call, and compares the answer and what is left. A line's sections are the
// call and its numbers; the lengths of the slices from, to, other, bytes, u64s, u16s and u32s; the answer; then the
// bytes of from before the call, of to before it, of to after it and of other after it, and the numbers of u16s before
// it and after it. A section behind the line's end has no numbers, and a length that is not there is 0. A slice with
// nothing listed before holds noise. No call writes `from`. A slice that is not listed after a call has to be as before
// if the call was refused, and may else hold anything.
use crate::buffers::{Content, Lent, Listed};
use crate::numbers::Unread;
use crate::reply::Answer;
use crate::settings::Numbers;
use crate::{buffers, calls, numbers};
use std::alloc::{AllocError, Global};

// The most that the slices from, to, other, bytes, u64s, u16s and u32s are long.
const LONGEST: [usize; 7] = [73728, 73728, 256, 40960, 18432, 8192, 151552];

// The most numbers that a line lists for all of them.
const LISTED: usize = 4096;

// A case has the sections of its line, and the seeds of the noise of the seven slices.
#[derive(Drop)]
struct Case {
    call: Numbers,
    lengths: [usize; 7],
    answer: Answer,
    from: Vec<usize>,
    before: Vec<usize>,
    after: Vec<usize>,
    other: Vec<usize>,
    counts_before: Vec<usize>,
    counts_after: Vec<usize>,
    seeds: [u32; 7],
}

impl Case {
    // Reads a line. The seed is that of the first slice.
    fn read(alloc: Global, line: &[u8], seed: u32) -> Result<Case, Unread> {
        let mut sections = line.splitn(10, |byte| *byte == b';');
        let mut section = || match sections.next() {
            Some(section) => section,
            None => &[],
        };
        let case = Case {
            call: numbers::array(alloc, section())?,
            lengths: numbers::array(alloc, section())?,
            answer: numbers::array(alloc, section())?,
            from: numbers::numbers(alloc, section(), LISTED)?,
            before: numbers::numbers(alloc, section(), LISTED)?,
            after: numbers::numbers(alloc, section(), LISTED)?,
            other: numbers::numbers(alloc, section(), LISTED)?,
            counts_before: numbers::numbers(alloc, section(), LISTED)?,
            counts_after: numbers::numbers(alloc, section(), LISTED)?,
            seeds: [0, 1, 2, 3, 4, 5, 6].map(|slice| seed.wrapping_add(slice)),
        };
        if section().is_empty() && case.fits() {
            Ok(case)
        } else {
            Err(Unread::Malformed)
        }
    }

    // Tests whether a case keeps to the lengths that are allowed.
    fn fits(&self) -> bool {
        let lists = [
            &self.from,
            &self.before,
            &self.after,
            &self.other,
            &self.counts_before,
            &self.counts_after,
        ];
        let room = lists
            .iter()
            .try_fold(LISTED, |room, list| room.checked_sub(list.len()));
        let mut lengths = self.lengths.iter().zip(&LONGEST);
        room.is_some() && lengths.all(|(length, most)| length <= most)
    }

    // Fills what is lent.
    fn fill(&self, lent: &mut Lent) -> Result<(), AllocError> {
        let [from, to, other, bytes, u64s, u16s, u32s] = self.lengths;
        let seeds = self.seeds;
        Content::of(&self.from, seeds[0]).fill(&mut lent.from, from)?;
        Content::of(&self.before, seeds[1]).fill(&mut lent.to, to)?;
        buffers::fill_noise(&mut lent.other, seeds[2], other)?;
        buffers::fill_noise(&mut lent.bytes, seeds[3], bytes)?;
        buffers::fill_noise(&mut lent.u64s, seeds[4], u64s)?;
        Content::of(&self.counts_before, seeds[5]).fill(&mut lent.u16s, u16s)?;
        buffers::fill_noise(&mut lent.u32s, seeds[6], u32s)
    }

    // Tests whether what was lent holds what it should.
    fn is_right(&self, lent: &Lent, refused: bool) -> bool {
        let seeds = self.seeds;
        let to = Content::of(&self.before, seeds[1]);
        let u16s = Content::of(&self.counts_before, seeds[5]);
        Content::of(&self.from, seeds[0]).is(&lent.from)
            && is_left(&lent.to, to, &self.after, refused)
            && is_left(&lent.other, Content::Noise(seeds[2]), &self.other, refused)
            && is_left(&lent.u16s, u16s, &self.counts_after, refused)
            && (!refused || buffers::is_noise(&lent.bytes, seeds[3]))
            && (!refused || buffers::is_noise(&lent.u64s, seeds[4]))
            && (!refused || buffers::is_noise(&lent.u32s, seeds[6]))
    }

    // Runs the case, and tests the answer and what is left.
    fn holds(&self, lent: &mut Lent) -> Result<bool, AllocError> {
        self.fill(lent)?;
        let answer = calls::call(self.call, lent);
        let refused = answer[0] != 0;
        Ok(answer == self.answer && self.is_right(lent, refused))
    }
}

// Tests whether a slice that a call may write holds what it should.
fn is_left<T: Listed>(data: &[T], before: Content<'_>, after: &[usize], refused: bool) -> bool {
    if after.is_empty() {
        !refused || before.is(data)
    } else {
        Content::Listed(after).is(data)
    }
}

// Tests whether the case of a line holds. A malformed line is a case that does not.
pub(crate) fn holds(
    alloc: Global,
    line: &[u8],
    seed: u32,
    lent: &mut Lent,
) -> Result<bool, AllocError> {
    match Case::read(alloc, line, seed) {
        Ok(case) => case.holds(lent),
        Err(Unread::Malformed) => Ok(false),
        Err(Unread::OutOfMemory(error)) => Err(error),
    }
}
