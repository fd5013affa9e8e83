//! Tests of the sentences that the program prints when it fails.

use nrt_base::LineNo;
use script_text::LineFault;
use std::test::Fail;
use stream_commands::{Status, stream_fault};

#[test]
fn sentences(rt: HostRuntime) -> Result<(), Fail> {
    let alloc = rt.alloc();
    for (status, want) in [
        (
            Status::BadScript(LineNo(3), LineFault::Count),
            "line 3: a word is missing, or there is one too many",
        ),
        (Status::ReadFault, "standard input cannot be read"),
        (Status::WriteFault, "standard output cannot be written"),
        (Status::Memory, "out of memory"),
        (Status::TooLarge, "the input has more than 16777216 bytes"),
        (Status::BadImage, "the input is no image of a directory"),
        (Status::BadStream(4), "bad stream, cause 4"),
    ] {
        assert_eq!(rt; status.to_string(alloc)?.as_str(), want);
    }
    let zero = "a frame has the length 0, where 1 to 65536 is wanted";
    assert_eq!(rt;
        stream_fault(alloc, &[0; 4]).to_string(alloc)?.as_str(),
        zero
    );
    let cut = "the stream ends within a frame";
    assert_eq!(rt;
        stream_fault(alloc, &[0; 2]).to_string(alloc)?.as_str(),
        cut
    );
    Ok(())
}
