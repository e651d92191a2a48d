// What is to be put right in a strip: cells, and beside each the byte that belongs there. There is room for the errata of sixteen lanes.
ghost use Rattle.lanes.specs.Fixes.{Noting, Noted};

use code::lane::Lane;
use marks::Counts;
use patches::Fixes;
use values::Errata;

// The errata e of lane l, of which w are the cells, noted after the others; how many cells they change.
pub(crate) fn note(
    w: Lane,
    e: Errata,
    marks: &[u8],
    lanes: usize,
    l: usize,
    fixes: &mut Fixes,
) -> Counts
    requires { Noting lanes l w e marks.now fixes.old }
    ensures { Noted lanes l w e marks.now fixes.old e.count fixes.new result }
{
    let mut c = Counts {
        mended: 0,
        repainted: 0,
    };
    for i in 0..e.count {
        let p = e.cells[i];
        let q = lanes * p + l;
        let v = e.values[i];
        fixes.cells[fixes.count] = q as u16;
        fixes.bytes[fixes.count] = w.bytes[p] ^ v;
        fixes.count += 1;
        c = marks::count_one(c, marks, q, v);
    }
    c
}
