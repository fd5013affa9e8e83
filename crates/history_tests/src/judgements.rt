//! What is judged of reports: a legal one in which one line is another, and short ones.

use report_judge::{cut_source, judge, verdict};
use script_text::parse_script;
use std::alloc::Global;
use std::test::Fail;

const SCRIPT: &str = "\
nodes 3
1 put a hello
1 publish
1 copy 2
1 search 2 hello
1 open 2 7
1 ask 7 hello
1 close 7
1 commit 2
1 settle
1 merge 2
1 drain 1
1 files 2
1 crash 1 0
1 promote 2 auto
1 reopen 1
report
";

const REPORT: &str = "\
2 accepted 1
3 publishing
3 published 1 2
4 copying 2 2
4 switched 2 2
4 copied 2 2
5 opened 2 0 2
5 answer 2 0 2 1 1:a
6 opened 2 7 2
7 asking 2 7 2
7 answer 2 7 2 1 1:a
8 closed 2 7
9 committing 2 2
9 committed 2 2
10 settling 2
10 switched 3 2
10 settled 2
11 refused none
12 drained 0
13 files 2 _10000.docs segments_1
14 crashed 1
15 promoted 2 2 2 3
16 reopened 1 1
";

/// The judgement of the report where a line of it is another; `drop`: where it lacks the line.
const CASES: &str = "\
legal 23;1 2 accepted 1
broken 1 rule 1;1 2 accepted 2
broken 3 rule 3;3 3 published 1 3
broken 4 rule 4;4 4 copying 2 1
broken 5 rule 5;5 4 switched 2 3
broken 5 rule 6;5 drop
broken 16 rule 7;16 drop
broken 7 rule 8;7 5 opened 2 0 1
broken 10 rule 9;10 7 asking 2 7 1
broken 8 rule 10;8 5 answer 2 0 2 0
broken 12 rule 11;12 8 closed 3 7
broken 13 rule 12;13 9 committing 2 1
broken 14 rule 13;14 9 committed 2 1
broken 23 rule 15;23 16 reopened 1 2
broken 22 rule 16;22 15 promoted 2 2 2 4
broken 20 rule 18;20 13 files 2 segments_1
broken 5 rule 19;5 4 fault 2 disk
broken 5 rule 20;5 4 refused lost
broken 19 rule 21;19 12 drained 1
unserved 4;4 4 copying 3 2
unserved 4;4 5 opened 2 0 1
unserved 4;4 99 copying 2 2
unserved 21;21 14 crashed 2
unread 4;4 4 copy 2 2
unread 4;4 4 copying  2 2
unread 4;4 4 copying 2 02
unread 4;4 4 copying 300 2
unanswered 16;23 drop
";

/// Judgements of whole sources, whose lines end by `/`.
const SOURCES: &str = "\
broken 1 rule 2;nodes 2/1 publish/report/2 publishing/
broken 3 rule 22;nodes 2/1 fault disk 2 1/1 fault disk 2 5/report/2 planned disk 2 1/3 fault 2 disk/3 planned disk 2 5/
broken 7 rule 17;nodes 2/1 put a x/1 publish/1 put b x/1 publish/1 merge 2/report/2 accepted 1/3 publishing/3 published 1 2/4 accepted 2/5 publishing/5 published 1 3/6 merging _10003/
unread 1;nodes 2/1 publish/report/2 publishing
legal 0;nodes 2/report/
legal 0;nodes 2/
unanswered 2;nodes 2/1 publish/
";

fn altered(alloc: Global, at: usize, line: &str) -> Result<Vec<u8>, Fail> {
    let mut out = Vec::new(alloc);
    out.extend_from_slice(SCRIPT.as_bytes())?;
    for (i, old) in REPORT.lines().enumerate() {
        let text = if i + 1 == at { line } else { old };
        if text != "drop" {
            out.extend_from_slice(text.as_bytes())?;
            out.push(b'\n')?;
        }
    }
    Ok(out)
}

fn judged(alloc: Global, bytes: &[u8]) -> Result<Vec<u8>, Fail> {
    let source = cut_source(bytes);
    let Ok(script) = parse_script(alloc, source.script) else {
        return Err(Fail::from("no script"));
    };
    let judgement = judge(alloc, &script, source.report)?;
    Ok(verdict(alloc, &judgement)?)
}

#[test]
fn altered_reports(rt: HostRuntime) -> Result<(), Fail> {
    for case in CASES.lines() {
        let (want, rest) = case.split_once(';').ok_or("no judgement")?;
        let (at, line) = rest.split_once(' ').ok_or("no line")?;
        let source = altered(rt.alloc(), at.parse::<usize>()?, line)?;
        let mut found = judged(rt.alloc(), source.as_slice())?;
        found.pop();
        assert_eq!(rt; found.as_slice(), want.as_bytes(), "{case}");
    }
    Ok(())
}

#[test]
fn sources(rt: HostRuntime) -> Result<(), Fail> {
    for case in SOURCES.lines() {
        let (want, lines) = case.split_once(';').ok_or("no judgement")?;
        let source = lines.replace(rt.alloc(), "/", "\n")?;
        let mut found = judged(rt.alloc(), source.as_bytes())?;
        found.pop();
        assert_eq!(rt; found.as_slice(), want.as_bytes(), "{case}");
    }
    Ok(())
}
