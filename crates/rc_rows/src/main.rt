//! Compares the top call with what it must come to, row by row, over objects in memory.
//!
//! The rows stand in files of `data/`, as rc_row_files says. Their keys are:
//!
//! | Key | What it gives |
//! |---|---|
//! | `text`, `line` | a piece of the text of the file `a.c`, or of the one that `named` gave last; `line` puts a line feed after it |
//! | `named` | the name of one more file, which is empty so far; it stands in place of one that has this name |
//! | `same` | nothing: the files are those of the row before |
//! | `input` | a piece of what there is to read |
//! | `words` | the words of the call; `""` is the empty word |
//! | `options` | in place of `words`: the call is made with `run a.c` and with `slow a.c` before these, as it is where neither key is given |
//! | `files`, `reads`, `writes`, `errors` | the calls that fail of the files, the input, the output and the error stream, numbered from 0 |
//! | `each` | how many calls are made of the files, the input, the output and the error stream: the call is made again with each of them failing alone, and then with the first call of each that is not to be made |
//! | `room` | how many bytes the output takes, if not 512 |
//! | `answer` | the answer, as `{:?}` prints it |
//! | `status` | the answer's status |
//! | `usage` | nothing: answer, status and error stream are those of words that ask nothing |
//! | `out`, `err` | a piece of what the output and the error stream take |
//! | `file`, `stored` | a piece of what stands under `a.c` and under `b.c` afterwards |
//! | `under` | a name, and behind a blank a piece of what stands under it afterwards. Pieces of one name follow each other |
//! | `heap` | how many regions more the heap takes afterwards, and how many objects more the last one of these, or region 0 where it takes none: 300 where it is 300 or more |
//! | `live` | with `heap`: the regions but 0 that the call left live, of the first 300, from the last to the first; without it there is none |
//! | `held` | with `heap`: those of them that stay when each is deleted in this order; without it there is none |
//!
//! A file of which no key says what stands there afterwards is as it was before, and a word of the call
//! that is no file's name is none afterwards. Without `heap` the heap is not looked at.
//!
//! In a piece `\n` is a line feed, `\\` a backslash, and `\x` stands before two hexadecimal digits of a
//! byte. Where a star follows `text`, `input` or `out`, a number stands before the piece, which comes so
//! many times.
//!
//! Arguments choose files in place of all. A row that differs is a line, and then the status is 1.
#![tactic(auto)]

mod behind;
mod calling;
mod comparing;
mod failing;
mod file;
mod outside;
mod piece;
mod reading;
mod row;
mod trying;

use rc_row_files::compare_files;
use row::Row;
use std::process::ExitCode;

const FILES: [&str; 19] = [
    "words.rows",
    "programs.rows",
    "values.rows",
    "limits.rows",
    "refused.rows",
    "failing.rows",
    "each.rows",
    "deep.rows",
    "files.rows",
    "images.rows",
    "exec.rows",
    "compile.rows",
    "heap.rows",
    "left.rows",
    "checks.rows",
    "soak.rows",
    "tasks.rows",
    "link.rows",
    "sealed.rows",
];

fn main(rt: HostRuntime) -> ExitCode {
    compare_files::<Row>(&rt, &FILES)
}
