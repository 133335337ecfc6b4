// Scripts with what they answer.
use crate::running::{Script, is_counted, is_looked_up};
use rc_base::NoMemory;
use std::alloc::Global;
use std::test::Fail;

/// A script with what it answers within these limits.
#[derive(Clone, Copy)]
struct Row {
    regions: u32,
    blocks: u32,
    text: &'static [u8],
    output: &'static [u8],
}

const ROWS: [Row; 14] = [
    // two regions that name each other go together and not alone, and no number is used again
    Row {
        regions: 10,
        blocks: 10,
        text: b"new 0\nnew 0\ncell 1 1\ncell 2 1\nlink 1 0 0 2\nlink 2 0 0 1\ndrop 1\ndrop 1 2\nnew 0\ndrop 1",
        output: b"region 1\nregion 2\nobject 0\nobject 0\nok\nok\nreference\nok\nregion 3\nbad\n",
    },
    // a subregion, a pin and region 0 keep a set
    Row {
        regions: 10,
        blocks: 10,
        text: b"new 0\nnew 1\nnew 1\ndrop 1 2\npin 3\ndrop 1 2 3\nunpin 3\ndrop 3 1 2\ndrop 0",
        output: b"region 1\nregion 2\nregion 3\nsubregion\nok\nreference\nok\nok\nroot\n",
    },
    Row {
        regions: 1,
        blocks: 10,
        text: b"new 0\nnew 0",
        output: b"region 1\nfull\n",
    },
    // as many objects as the limit in each region
    Row {
        regions: 10,
        blocks: 1,
        text: b"new 0\ncell 0 0\ncell 1 2\ncell 1 1\ncell 0 3\nlink 0 0 0 0\nlink 1 0 1 1\nlink 1 0 2 1\n",
        output: b"region 1\nobject 0\nobject 0\nfull\nfull\nbad\nok\nbad\n",
    },
    Row {
        regions: 0,
        blocks: 0,
        text: b"new 0\ncell 0 1\npin 0\nunpin 0\nunpin 0\n",
        output: b"full\nfull\nok\nok\nbad\n",
    },
    // no line, a line without an end, empty lines
    Row {
        regions: 10,
        blocks: 10,
        text: b"",
        output: b"",
    },
    Row {
        regions: 10,
        blocks: 10,
        text: b"\n\nnew 0",
        output: b"bad\nbad\nregion 1\n",
    },
    // words that are no numbers, too few, too many, other blanks, a verb in capitals
    Row {
        regions: 10,
        blocks: 10,
        text: b"new\nnew 00\nnew 0 0\nnew  0\nnew 0 \n new 0\nnew\t0\nnew 0\r\nnew +0\nnew -\nNew 0\npin 4294967296\nnew 0x0\n",
        output: b"bad\nbad\nbad\nbad\nbad\nbad\nbad\nbad\nbad\nbad\nbad\nbad\nbad\n",
    },
    // regions that aren't live, and one that stands twice
    Row {
        regions: 10,
        blocks: 10,
        text: b"new 0\ndrop 1\nnew 1\npin 1\nunpin 1\ncell 1 1\nlink 1 0 0 0\ndrop 1 0\ndrop 0 0\ndrop\n",
        output: b"region 1\nok\nbad\nbad\nbad\nbad\nbad\nbad\nbad\nbad\n",
    },
    // too many elements, and a cell that names none again
    Row {
        regions: 10,
        blocks: 10,
        text: b"cell 0 2147483648\ncell 0 4294967295\nnew 0\ncell 0 2\nlink 0 0 1 1\ndrop 1\nlink 0 0 1 -\ndrop 1\nlink 0 0 1 1\n",
        output: b"bad\nbad\nregion 1\nobject 0\nok\nreference\nok\nok\nbad\n",
    },
    // two pins of one region
    Row {
        regions: 10,
        blocks: 10,
        text: b"new 0\npin 1\npin 1\nunpin 1\ndrop 1\nunpin 1\nunpin 1\ndrop 1\n",
        output: b"region 1\nok\nok\nok\nreference\nok\nbad\nok\n",
    },
    // cells before and behind the fourth of a region, of its first object and of its second, each of which
    // names another region alone
    Row {
        regions: 10,
        blocks: 10,
        text: b"new 0\nnew 0\ncell 1 3\ncell 1 2\nlink 1 0 2 2\nlink 1 1 0 2\nlink 1 1 1 2\nlink 1 0 2 -\nlink 1 1 0 -\ndrop 2\nlink 1 1 0 2\nlink 1 1 1 -\ndrop 2\nlink 1 0 2 2\nlink 1 1 0 -\ndrop 2\nlink 1 0 2 -\ndrop 2\n",
        output: b"region 1\nregion 2\nobject 0\nobject 1\nok\nok\nok\nok\nok\nreference\nok\nok\nreference\nok\nok\nreference\nok\nok\n",
    },
    // the same at the end of a region's first page, and of cells that one object has on both sides
    Row {
        regions: 10,
        blocks: 10,
        text: b"new 0\nnew 0\ncell 1 260\ncell 1 2\nlink 1 0 259 2\ndrop 2\nlink 1 0 259 -\nlink 1 1 0 2\ndrop 2\nlink 1 1 0 -\nlink 1 0 3 2\ndrop 2\nlink 1 0 3 -\nlink 1 0 4 2\ndrop 2\nlink 1 0 4 1\ndrop 2\ndrop 1\n",
        output: b"region 1\nregion 2\nobject 0\nobject 1\nok\nreference\nok\nok\nreference\nok\nok\nreference\nok\nok\nreference\nok\nok\nok\n",
    },
    // a region that comes in a deleted one's place has none of its cells
    Row {
        regions: 10,
        blocks: 10,
        text: b"new 0\nnew 0\ncell 1 6\nlink 1 0 0 2\nlink 1 0 3 2\nlink 1 0 5 2\ndrop 2\ndrop 1\nnew 0\ncell 3 1\ncell 3 5\ndrop 2\ndrop 3\n",
        output: b"region 1\nregion 2\nobject 0\nok\nok\nok\nreference\nok\nregion 3\nobject 0\nobject 1\nok\nok\n",
    },
];

/// Whether both heaps answer what a row says.
fn is_answered(alloc: Global, row: &Row) -> Result<bool, NoMemory> {
    let script = Script {
        regions: row.regions,
        blocks: row.blocks,
        text: row.text,
    };
    Ok(is_counted(alloc, script, row.output)? && is_looked_up(alloc, script, row.output)?)
}

#[test]
fn scripts_answer_as_defined(rt: HostRuntime) -> Result<(), Fail> {
    for row in &ROWS {
        assert!(rt; is_answered(rt.alloc(), row)?);
    }
    Ok(())
}
