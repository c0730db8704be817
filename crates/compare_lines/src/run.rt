// The loop of a program: a line of answer to each line of standard input.
ghost use Rattle.std.specs.Prelude.{◌≡◌, ℕ, List, ◌<◌, ◌≤◌, ◌%◌, length};

use super::block;
use std::io;
use std::io::{ErrorKind, Write};

// A whole number of lines.
pub const BLOCK: usize = 4096;

// More than the longest answer.
pub const ROOM: usize = 8192;

// The loop ends after a hundred million lines.
const LINES_MOST: usize = 100_000_000;

// The answer to a line, which is written out as a whole. A type of its own, since a `Cursor` takes half as long again for an answer of many short words.
#[derive(Drop)]
pub struct Page {
    bytes: [u8; ROOM],
    end: usize,
    ghost within: { end ≤ length bytes },
}

impl Page {
    fn new() -> Page {
        Page {
            bytes: [0; ROOM],
            end: 0,
        }
    }

    fn written(&self) -> &[u8] {
        &self.bytes[..self.end]
    }

    fn clear(&mut self) {
        self.end = 0;
    }
}

impl Write for Page {
    fn write(&mut self, buf: &[u8]) -> io::Result<usize> {
        let n = buf.len().min(ROOM - self.end);
        self.bytes[self.end..self.end + n].copy_from_slice(&buf[..n]);
        self.end += n;
        Ok(n)
    }

    // At once, or nothing of it.
    fn write_all(&mut self, buf: &[u8]) -> io::Result<()> {
        if ROOM - self.end < buf.len() {
            return Err(io::Error::from(ErrorKind::WriteZero));
        }
        self.bytes[self.end..self.end + buf.len()].copy_from_slice(buf);
        self.end += buf.len();
        Ok(())
    }

    fn flush(&mut self) -> io::Result<()> {
        Ok(())
    }
}

fn answer_lines<const WIDTH: usize, F: Fn(&mut Page, &[u8]) -> io::Result<()>>(
    rt: &impl Print,
    lines: &[u8],
    page: &mut Page,
    answer: &F,
) -> io::Result<()>
    requires width { 0 < WIDTH }
    requires callable { (page line : _) → length line.now ≡ WIDTH → F.pre answer.now page line }
{
    for line in lines.chunks_exact(WIDTH) {
        page.clear();
        answer(page, line)?;
        writeln!(page)?;
        rt.write_all(page.written())?;
    }
    Ok(())
}

// Block after block, until one is not full.
pub fn run<const WIDTH: usize, F: Fn(&mut Page, &[u8]) -> io::Result<()>>(
    rt: &HostRuntime,
    answer: F,
) -> io::Result<()>
    requires whole { (0 < WIDTH) × (WIDTH ≤ BLOCK) × (BLOCK % WIDTH ≡ 0) }
    requires callable { (page line : _) → length line.now ≡ WIDTH → F.pre answer page line }
{
    let mut input = rt.stdin();
    let mut bytes = [0u8; BLOCK];
    let mut page = Page::new();
    for _ in 0..LINES_MOST * WIDTH / BLOCK {
        let got = block::fill(&mut input, &mut bytes)?;
        answer_lines::<WIDTH, F>(rt, &bytes[..got], &mut page, &answer)?;
        if got < BLOCK {
            break;
        }
    }
    Ok(())
}
