// The first line of a text: `par`, a space, the par and a line feed.
ghost use Rattle.std.specs.Prelude.{◌≡◌, ◌+◌, ◌%◌, ◌≤◌};
ghost use Rattle.typed.specs.Parts.{LineIs};

// A line and its length: an array holds it, since nothing may be allocated.
#[derive(Clone, Copy)]
pub struct Line {
    pub bytes: [u8; 9],
    pub len: usize,
}

// The last digit of a number.
fn digit(n: usize) -> u8
    ensures { result ≡ 48 + n % 10 }
{
    b'0' + (n % 10) as u8
}

// The first line of a par. Readers hold a text against it, and writers put it.
pub fn line_of(par: usize) -> Line
    requires { par ≤ 1023 }
    ensures { LineIs par result }
{
    if par < 10 {
        return Line {
            bytes: [b'p', b'a', b'r', b' ', digit(par), b'\n', 0, 0, 0],
            len: 6,
        };
    }
    if par < 100 {
        return Line {
            bytes: [
                b'p',
                b'a',
                b'r',
                b' ',
                digit(par / 10),
                digit(par),
                b'\n',
                0,
                0,
            ],
            len: 7,
        };
    }
    if par < 1000 {
        return Line {
            bytes: [
                b'p',
                b'a',
                b'r',
                b' ',
                digit(par / 100),
                digit(par / 10),
                digit(par),
                b'\n',
                0,
            ],
            len: 8,
        };
    }
    Line {
        bytes: [
            b'p',
            b'a',
            b'r',
            b' ',
            digit(par / 1000),
            digit(par / 100),
            digit(par / 10),
            digit(par),
            b'\n',
        ],
        len: 9,
    }
}
