// A lane of a strip by value: one record of the program, so that no buffer is lent.
ghost use Rattle.code.specs.Lane.{LaneRepairsAs};

use marks::Counts;
use rules::Refusal;

// How many bytes a lane has at most.
pub const LANE_MOST: usize = 187;

// A lane, or its marks, with its length.
#[derive(Clone, Copy)]
pub struct Lane {
    pub bytes: [u8; LANE_MOST],
    pub len: usize,
}

// A lane, and what its repair answers.
#[derive(Clone, Copy)]
pub struct LaneRepair {
    pub lane: Lane,
    pub answer: Result<Counts, Refusal>,
}

// The lane becomes the clean lane within reach, if there is one. Its marks are a lane too.
pub fn repair_lane(lane: Lane, marks: Lane) -> LaneRepair
    ensures { LaneRepairsAs lane marks result }
{
    let n = lane.len;
    if n < 6 || LANE_MOST < n {
        return LaneRepair {
            lane,
            answer: Err(Refusal::Length),
        };
    }
    if marks.len != n {
        return LaneRepair {
            lane,
            answer: Err(Refusal::MarkCount),
        };
    }
    let mut bytes = lane.bytes;
    let answer = super::repair::repair(&mut bytes[..n], &marks.bytes[..n]);
    LaneRepair {
        lane: Lane { bytes, len: n },
        answer,
    }
}
