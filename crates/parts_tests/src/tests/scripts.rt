//! Test of `Reader`, which reads the lines of a script as items, from chunks of any length. The functions fail with
//! `AllocError` if memory runs out.
ghost use Rattle.std.specs.Prelude.{◌≡◌, ◌<◌, false};

use script_reader::{Command, Next, Reader};
use std::alloc::{AllocError, Global};
use std::test::Fail;

/// Scripts, each with the items that the reader must return, as `shown` writes them. `bad` has the number
/// of the first line that isn't in the grammar or isn't allowed at its place; after it nothing is read.
static SCRIPTS: [(&str, &str); 60] = [
    ("", "end;"),
    (
        "heap 1 512 1 4\nm 1 24\nf 1\n",
        "heap 1 64 1 4;m 1 24;f 1;end;",
    ),
    (
        "heap 1 512 1 4\r\nwalk\r\n\r\nfrag\r\n",
        "heap 1 64 1 4;walk;frag;end;",
    ),
    ("heap 1 512 1 4\nwalk\r\r\n", "heap 1 64 1 4;bad 2;"),
    ("heap 1 512 1 4\nwa\rlk\n", "heap 1 64 1 4;bad 2;"),
    ("heap 1 512 1 4\nwalk \r\n", "heap 1 64 1 4;walk;end;"),
    (
        "\theap\t001  0512 \t1 0004 \nm\t07 0024\n",
        "heap 1 64 1 4;m 7 24;end;",
    ),
    ("heap 1 512 1 4\nw 1 0 abc\n", "heap 1 64 1 4;bad 2;"),
    (
        "heap 1 512 1 4\nw 1 0 ABcd09\n",
        "heap 1 64 1 4;w 1 0 3 bytes 171 to 9;end;",
    ),
    ("heap 1 512 1 4\nw 1 0 0g\n", "heap 1 64 1 4;bad 2;"),
    ("heap 1 512 1 4\nw 1 0\n", "heap 1 64 1 4;bad 2;"),
    ("heap 1 512 1 4\nw 1 0 ab cd\n", "heap 1 64 1 4;bad 2;"),
    (
        "heap 1 512 1 4\np 4294967295\n",
        "heap 1 64 1 4;p 4294967295;end;",
    ),
    ("heap 1 512 1 4\np 4294967296\n", "heap 1 64 1 4;bad 2;"),
    ("heap 1 512 1 4\nf 65535\n", "heap 1 64 1 4;f 65535;end;"),
    ("heap 1 512 1 4\nf 65536\n", "heap 1 64 1 4;bad 2;"),
    ("heap 1 512 1 4\nheap 1 512 1 4\n", "heap 1 64 1 4;bad 2;"),
    (
        "heap 1 512 1 4\nwalk\nheap 1 512 1 4\n",
        "heap 1 64 1 4;walk;bad 3;",
    ),
    ("walk\nheap 1 512 1 4\n", "bad 1;"),
    ("heap 0 512 1 4\n", "bad 1;"),
    ("heap 1 500 1 4\n", "bad 1;"),
    ("heap 1 512 65 4\n", "bad 1;"),
    ("heap 1 512 1 65537\n", "bad 1;"),
    ("heap 4096 131072 1 4\n", "bad 1;"),
    ("heap 512 131072 1 65536\n", "heap 512 16384 1 65536;end;"),
    (
        "heap 1 512 1 4\nk 23 2\n# c\n\nk 24 64\nwalk\nk 4 2\n",
        "heap 1 64 1 4;k 23 2;k 24 64;walk;bad 7;",
    ),
    (
        "heap 1 512 1 4\nm 1 8\nk 4 2\n",
        "heap 1 64 1 4;m 1 8;bad 3;",
    ),
    ("k 4 2\n", "bad 1;"),
    ("heap 1 512 1 4\nk 4 65\n", "heap 1 64 1 4;bad 2;"),
    ("heap 1 512 1 4\nk 4 0\n", "heap 1 64 1 4;bad 2;"),
    ("heap 1 512 1 4\n#\0 any\nwalk\n", "heap 1 64 1 4;walk;end;"),
    ("heap 1 512 1 4\n\0\n", "heap 1 64 1 4;bad 2;"),
    ("heap 1 512 1 4\nwalk \0\n", "heap 1 64 1 4;bad 2;"),
    ("heap 1 512 1 4\n \t# x\nwalk\n", "heap 1 64 1 4;walk;end;"),
    ("heap 1 512 1 4\nwalk # x\n", "heap 1 64 1 4;bad 2;"),
    ("heap 1 512 1 4\nm 1 8", "heap 1 64 1 4;m 1 8;end;"),
    ("heap 1 512 1 4\nm 1", "heap 1 64 1 4;bad 2;"),
    ("heap 1 512 1 4\n\r", "heap 1 64 1 4;end;"),
    ("\n \n\t\nx\n", "bad 4;"),
    (
        "heap 1 512 1 4\nr 1 7 4096\nr 1 0 4097\n",
        "heap 1 64 1 4;r 1 7 4096;bad 3;",
    ),
    (
        "heap 1 512 1 4\nq 5\nb 5 6\nsteps\n",
        "heap 1 64 1 4;q 5;b 5 6;steps;end;",
    ),
    (
        "heap 1 512 1 4\nz 1 176\ns\nt 15\n",
        "heap 1 64 1 4;z 1 176;s;t 15;end;",
    ),
    (
        "heap 1 512 1 4\nquota 0 5\nneed 1 2 3\nadmit 15\n",
        "heap 1 64 1 4;quota 0 5;need 1 2 3;admit 15;end;",
    ),
    ("heap 1 512 1 4\nt 16\n", "heap 1 64 1 4;bad 2;"),
    ("heap 1 512 1 4\nquota 16 5\n", "heap 1 64 1 4;bad 2;"),
    ("heap 1 512 1 4\nneed 16 1 1\n", "heap 1 64 1 4;bad 2;"),
    ("heap 1 512 1 4\nadmit 16\n", "heap 1 64 1 4;bad 2;"),
    ("heap 1 512 1 4\ns 1\n", "heap 1 64 1 4;bad 2;"),
    ("heap 1 512 1 4\nwalk 1\n", "heap 1 64 1 4;bad 2;"),
    ("heap 1 512 1 4\nM 1 8\n", "heap 1 64 1 4;bad 2;"),
    ("heap 1 512 1 4\nmm 1 8\n", "heap 1 64 1 4;bad 2;"),
    ("heap 1 512 1 4\nm 1\n", "heap 1 64 1 4;bad 2;"),
    ("heap 1 512 1 4\nm 1 8 9\n", "heap 1 64 1 4;bad 2;"),
    ("heap 1 512 1 4\nm -1 8\n", "heap 1 64 1 4;bad 2;"),
    ("heap 1 512 1 4\nm +1 8\n", "heap 1 64 1 4;bad 2;"),
    ("heap 1 512 1\n", "bad 1;"),
    ("heap 1 512 1 4 5\n", "bad 1;"),
    ("heap 1 512 1 4\nwalks\n", "heap 1 64 1 4;bad 2;"),
    ("# a\r\n\r\nheap 1 512 1 4\n#\n", "heap 1 64 1 4;end;"),
    ("Heap 1 512 1 4\n", "bad 1;"),
];

/// Long scripts: a beginning, a byte that is repeated, how often, an end, and the items. A line has at most
/// 8,999 bytes, its carriage return counted, its line feed not; a write has at most 4,096 bytes. A last line
/// `x` is bad, so `bad 2` shows that line 1 was accepted, and `bad 1` that it was too long.
static LONG_SCRIPTS: [(&str, u8, usize, &str, &str); 12] = [
    ("#", b'x', 8_998, "\nx", "bad 2;"),
    ("#", b'x', 8_999, "\nx", "bad 1;"),
    ("#", b'x', 8_997, "\r\nx", "bad 2;"),
    ("#", b'x', 8_998, "\r\nx", "bad 1;"),
    ("#", b'x', 8_998, "", "end;"),
    ("#", b'x', 8_999, "", "bad 1;"),
    ("", b' ', 8_999, "\nx", "bad 2;"),
    ("", b' ', 9_000, "\nx", "bad 1;"),
    (
        "heap 1 512 1 4\n#",
        255,
        3,
        "\nwalk\n",
        "heap 1 64 1 4;walk;end;",
    ),
    (
        "heap 1 512 1 4\nwalk ",
        255,
        1,
        "\n",
        "heap 1 64 1 4;bad 2;",
    ),
    (
        "heap 1 512 1 4\nw 1 0 ",
        b'a',
        8_192,
        "\n",
        "heap 1 64 1 4;w 1 0 4096 bytes 170 to 170;end;",
    ),
    (
        "heap 1 512 1 4\nw 1 0 ",
        b'a',
        8_194,
        "\n",
        "heap 1 64 1 4;bad 2;",
    ),
];

/// The item as text that ends with `;`. A `heap` line has its pages, the words of a page, k and the
/// proxies. The text is empty if the reader needs more bytes.
fn shown(alloc: Global, next: &Next) -> Result<String, AllocError> {
    match next {
        Next::Start(s) => {
            format!(in alloc; "heap {} {} {} {};", s.pages, s.page_words, s.k, s.proxies)
        }
        Next::Command(command) => shown_command(alloc, command),
        Next::NeedMore => String::from_str(alloc, ""),
        Next::Bad { line } => format!(in alloc; "bad {line};"),
        Next::End => String::from_str(alloc, "end;"),
    }
}

/// The command as text that ends with `;`. A write has the number of its bytes, the first and the last one.
fn shown_command(alloc: Global, command: &Command) -> Result<String, AllocError> {
    match command {
        Command::Malloc { id, bytes } => format!(in alloc; "m {id} {bytes};"),
        Command::Free { id } => format!(in alloc; "f {id};"),
        Command::Write { id, at, bytes } => {
            let bytes = bytes.bytes();
            let last = bytes[bytes.len() - 1];
            format!(in alloc; "w {id} {at} {} bytes {} to {last};", bytes.len(), bytes[0])
        }
        Command::Read { id, at, len } => format!(in alloc; "r {id} {at} {len};"),
        Command::Place { id } => format!(in alloc; "q {id};"),
        Command::Block { id, i } => format!(in alloc; "b {id} {i};"),
        Command::Peek { word } => format!(in alloc; "p {word};"),
        Command::Walk => String::from_str(alloc, "walk;"),
        Command::Frag => String::from_str(alloc, "frag;"),
        Command::Steps => String::from_str(alloc, "steps;"),
        Command::Bound { slot_words, k } => format!(in alloc; "k {slot_words} {k};"),
        Command::Resize { id, bytes } => format!(in alloc; "z {id} {bytes};"),
        Command::Slice => String::from_str(alloc, "s;"),
        Command::Task { task } => format!(in alloc; "t {task};"),
        Command::Quota { task, pages } => format!(in alloc; "quota {task} {pages};"),
        Command::Need { task, bytes, count } => format!(in alloc; "need {task} {bytes} {count};"),
        Command::Admit { task } => format!(in alloc; "admit {task};"),
    }
}

/// Takes the items that the reader has, at most 100, and appends each to the text. Returns whether a line was bad.
/// Whether the script has ended (`finish`) is unchanged.
fn drain(alloc: Global, reader: &mut Reader, text: &mut String) -> Result<bool, AllocError>
    ensures { reader.new.ended ≡ reader.old.ended }
{
    'asks: for _ in 0..100 {
        let next = reader.next_command();
        text.push_str(shown(alloc, &next)?.as_str())?;
        match next {
            Next::Start(_) | Next::Command(_) => {}
            Next::Bad { .. } => return Ok(true),
            _ => return Ok(false),
        }
    }
    Ok(false)
}

/// Returns the items, as text, that a reader returns for the script in chunks of `size` bytes, at least one. `feed` may
/// take just a prefix of a chunk; the rest of the chunk is fed after the items of the prefix were read.
fn read(alloc: Global, script: &[u8], size: usize) -> Result<String, AllocError>
    requires { 0 < size }
{
    let mut reader = Reader::new();
    let mut text = String::new(alloc);
    'chunks: for chunk in script.chunks(size) {
        let n = reader.feed(chunk);
        if drain(alloc, &mut reader, &mut text)? {
            return Ok(text);
        }
        let _ = reader.feed(&chunk[n..]);
        if drain(alloc, &mut reader, &mut text)? {
            return Ok(text);
        }
    }
    reader.finish();
    let _ = drain(alloc, &mut reader, &mut text)?;
    Ok(text)
}

// The reader returns the wanted items of each script, in chunks of 1, 3 and 4,096 bytes, and the long
// scripts also in chunks of 9,000.
#[test]
fn scripts_are_read_alike_in_every_cut(rt: HostRuntime) -> Result<(), Fail> {
    for (script, items) in &SCRIPTS {
        for size in [1, 3, 4096] {
            let text = read(rt.alloc(), script.as_bytes(), size)?;
            assert_eq!(rt; text.as_str(), *items, "{script} by {size}");
        }
    }
    for (front, byte, count, back, items) in &LONG_SCRIPTS {
        let mut script = Vec::from_slice(rt.alloc(), front.as_bytes())?;
        for _ in 0..*count {
            script.push(*byte)?;
        }
        script.extend_from_slice(back.as_bytes())?;
        for size in [1, 3, 4096, 9000] {
            let text = read(rt.alloc(), script.as_slice(), size)?;
            assert_eq!(rt; text.as_str(), *items, "{front} {count} by {size}");
        }
    }
    Ok(())
}
