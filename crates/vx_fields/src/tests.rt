//! Lines that are split at their commas, and lines that are not plain.

use crate::{FieldTable, LineBlock, Unsplit, is_plain_line, plain_lines, why_unsplit};
use std::test::Fail;

#[test]
fn lines_are_split_at_their_commas(rt: HostRuntime) -> Result<(), Fail> {
    let mut block = LineBlock::new(rt.alloc());
    let mut table = FieldTable::new(rt.alloc());
    for line in ["V,08:30", ",,", "END,13", "a b,c"] {
        assert!(rt; is_plain_line(line.as_bytes()));
        block.push(line.as_bytes())?;
    }
    table.fill(&block)?;
    assert_eq!(rt; table.len(), 4);
    assert_eq!(rt; table.line(0).len(), 2);
    assert_eq!(rt; table.line(0).get(1), Some(b"08:30".as_slice()));
    assert_eq!(rt; table.line(1).len(), 3);
    assert_eq!(rt; table.line(1).get(2), Some(b"".as_slice()));
    assert_eq!(rt; table.line(3).get(0), Some(b"a b".as_slice()));
    assert!(rt; table.line(3).get(2).is_none());
    block.clear();
    table.fill(&block)?;
    assert!(rt; table.is_empty() && block.is_empty());
    block.push_text(b"a,b\nc\n")?;
    table.fill(&block)?;
    assert_eq!(rt; table.len(), 2);
    assert_eq!(rt; table.line(1).get(0), Some(b"c".as_slice()));
    Ok(())
}

#[test]
fn other_lines_are_not_plain(rt: HostRuntime) {
    for line in ["", "\"", "a\tb", "a\r", "a\u{7f}", "é"] {
        assert!(rt; !is_plain_line(line.as_bytes()));
    }
    assert_eq!(rt; why_unsplit(b""), Some(Unsplit::Empty));
    assert_eq!(rt; why_unsplit(b"a\tb"), Some(Unsplit::Byte));
    assert!(rt; why_unsplit(b"a,b").is_none());
    assert_eq!(rt; plain_lines(b"a\nb\n\nc\n"), b"a\nb\n".as_slice());
    assert_eq!(rt; plain_lines(b"a\nb\tc\n"), b"a\n".as_slice());
}
