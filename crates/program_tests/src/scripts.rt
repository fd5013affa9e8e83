//! Worked scripts, and how their reports end.

use crate::running::each_ends;
use std::test::Fail;

// Ordinary use.
const ARTICLES: &[u8] =
    b"nodes 3\nworkers 0\n# three articles\n1 put art-1 Storm closes harbour road, ferries wait\n1 put art-2 Harbour road to reopen on Friday\n1 put art-3 Council votes on ferry terminal\n1 publish\n1 settle\n1 search 2 \"harbour road\"\n1 put art-2 Road reopens early\n1 delete art-3\n1 publish\n1 settle\n1 search 3 \"harbour road\"\n1 search 3 road AND NOT storm\n";

// A word is dropped, and hits are ranked.
const DROPPED: &[u8] =
    b"nodes 2\n1 put a red fox red\n1 put b red hen\n1 put c blue hen\n1 publish\n1 search 1 red OR hen\n1 drop red\n1 put d red owl\n1 publish\n1 search 1 red OR hen";

// A replica that was not copied to; publishes of nothing, and of three operations that leave nothing; a settle; and longer scripts.
#[test]
fn publishes(rt: HostRuntime) -> Result<(), Fail> {
    let rows: &[(&[u8], &[u8])] = &[
        (
            b"nodes 2\n1 put a x\n1 publish\n1 search 2 x",
            b"4 opened 2 0 1\n4 answer 2 0 1 0\n",
        ),
        (
            b"nodes 2\n1 put a x\n1 publish\n1 publish\n1 put b y\n1 publish\n",
            b"4 refused none\n5 accepted 2\n6 publishing\n6 published 1 3\n",
        ),
        (
            b"nodes 2\n1 put a one\n1 put a two\n1 delete a\n1 publish\n1 search 1 one OR two\n1 files 1\n",
            b"5 published 1 2\n6 opened 1 0 2\n6 answer 1 0 2 0\n7 files 1\n",
        ),
        (
            b"nodes 3\n1 put a x\n1 publish\n1 settle\n",
            b"4 settling 2\n4 switched 2 2\n4 switched 3 2\n4 settled 2\n",
        ),
        (
            ARTICLES,
            b"7 published 1 2\n8 settling 2\n8 switched 2 2\n8 switched 3 2\n8 settled 2\n9 opened 2 0 2\n9 answer 2 0 2 2 1:art-1 1:art-2\n10 accepted 4\n11 accepted 5\n12 publishing\n12 published 1 3\n13 settling 3\n13 switched 2 3\n13 switched 3 3\n13 settled 3\n14 opened 3 0 3\n14 answer 3 0 3 1 1:art-1\n15 opened 3 0 3\n15 answer 3 0 3 1 1:art-2\n",
        ),
        (
            DROPPED,
            b"6 answer 1 0 2 3 2:a 2:b 1:c\n7 accepted 4\n8 accepted 5\n9 publishing\n9 published 1 3\n10 opened 1 0 3\n10 answer 1 0 3 2 1:c 1:d\n",
        ),
    ];
    each_ends(&rt, rt.alloc(), rows)
}

// A replica that crashes before it has committed.
const UNCOMMITTED: &[u8] =
    b"nodes 2\n1 put a x\n1 publish\n1 copy 2\n1 crash 2 0\n1 search 2 x\n1 reopen 2\n1 search 2 x\n1 files 2\n";

// A commit and two crashes.
const COMMITTED: &[u8] =
    b"nodes 2\n1 put a x\n1 publish\n1 copy 2\n1 commit 2\n1 put b x\n1 publish\n1 copy 2\n1 crash 2 0\n1 reopen 2\n1 copy 2\n1 crash 2 1\n1 reopen 2\n1 search 2 x\n1 files 2\n";

// A ticket that a crash ends.
const TICKET: &[u8] =
    b"nodes 2\n1 put a x\n1 publish\n1 copy 2\n1 open 2 3\n1 crash 2 0\n1 ask 3 x\n1 reopen 2\n1 ask 3 x\n";

#[test]
fn crashes(rt: HostRuntime) -> Result<(), Fail> {
    let rows: &[(&[u8], &[u8])] = &[
        (
            UNCOMMITTED,
            b"\n5 crashed 2\n6 refused down\n7 reopened 2 1\n8 opened 2 0 1\n8 answer 2 0 1 0\n9 files 2\n",
        ),
        (
            COMMITTED,
            b"\n5 committing 2 2\n5 committed 2 2\n6 accepted 2\n7 publishing\n7 published 1 3\n8 copying 2 3\n8 switched 2 3\n8 copied 2 3\n9 crashed 2\n10 reopened 2 2\n11 copying 2 3\n11 switched 2 3\n11 copied 2 3\n12 crashed 2\n13 reopened 2 2\n14 opened 2 0 2\n14 answer 2 0 2 1 1:a\n15 files 2 _10000.docs _10000.post _10000.si segments_1\n",
        ),
        (
            TICKET,
            b"\n5 opened 2 3 2\n6 crashed 2\n7 refused no-ticket\n8 reopened 2 1\n9 refused no-ticket\n",
        ),
    ];
    each_ends(&rt, rt.alloc(), rows)
}

// A published version that no replica has.
const UNCOPIED: &[u8] =
    b"nodes 2\n1 put a x\n1 publish\n1 put b x\n1 publish\n1 put c x\n1 publish\n1 put d x\n1 publish\n1 put e x\n1 publish\n1 copy 2\n1 put f x\n1 publish\n1 crash 1 0\n1 promote 2 6\n1 promote 2 7\n1 search 2 x\n";

// The old primary comes back as a replica.
const BACK: &[u8] =
    b"nodes 2\n1 put a x\n1 publish\n1 copy 2\n1 put b x\n1 publish\n1 commit 1\n1 crash 1 0\n1 promote 2 auto\n1 put c x\n1 publish\n1 reopen 1\n1 search 1 x\n1 copy 1\n1 search 1 x\n1 files 1\n";

// Forced versions that are too high, and the highest.
const HIGH: &[u8] =
    b"nodes 2\n1 crash 1 0\n1 promote 2 4611686018427387904\n1 promote 2 4611686018427387903\n1 crash 2 0\n1 promote 1 auto\n1 reopen 1\n1 promote 1 auto\n";

// Two live files of one segment, of two generations.
const LIVE: &[u8] =
    b"nodes 3\n1 put a x\n1 put c x\n1 publish\n1 copy 2\n1 delete a\n1 publish\n1 copy 3\n1 crash 1 0\n1 promote 2 auto\n1 delete c\n1 publish\n1 copy 3\n1 search 3 x\n1 files 3\n";

// An operation that the point lacks is in the log.
const LOGGED: &[u8] =
    b"nodes 2\nlog\n1 put a x\n1 publish\n1 copy 2\n1 put b x\n1 publish\n1 put c x\n1 crash 1 0\n1 promote 2 auto\n1 publish\n1 search 2 x\n";

// The same without a log.
const LOST: &[u8] =
    b"nodes 2\n1 put a x\n1 publish\n1 copy 2\n1 put b x\n1 publish\n1 put c x\n1 crash 1 0\n1 promote 2 auto\n1 publish\n1 search 2 x\n";

// Each refusal of a promotion.
const REFUSED: &[u8] =
    b"nodes 3\n1 promote 2 auto\n1 crash 1 0\n1 promote 1 0\n1 promote 2 0\n1 promote 2 4611686018427387904\n";

#[test]
fn promotions(rt: HostRuntime) -> Result<(), Fail> {
    let rows: &[(&[u8], &[u8])] = &[
        (
            UNCOPIED,
            b"\n15 crashed 1\n16 refused force-low 7\n17 promoted 2 2 7 8\n18 opened 2 0 8\n18 answer 2 0 8 5 1:a 1:b 1:c 1:d 1:e\n",
        ),
        (
            BACK,
            b"\n7 committing 1 3\n7 committed 1 3\n8 crashed 1\n9 promoted 2 2 3 4\n10 accepted 3\n11 publishing\n11 published 2 5\n12 reopened 1 3\n13 opened 1 0 3\n13 answer 1 0 3 2 1:a 1:b\n14 copying 1 5\n14 switched 1 5\n14 copied 1 5\n15 opened 1 0 5\n15 answer 1 0 5 2 1:a 1:c\n16 files 1 _10000.docs _10000.post _10000.si _10001.docs _10001.post _10001.si _20000.docs _20000.post _20000.si segments_1\n",
        ),
        (
            HIGH,
            b"2 crashed 1\n3 refused force-high\n4 promoted 2 2 4611686018427387903 4611686018427387904\n5 crashed 2\n6 refused down\n7 reopened 1 1\n8 refused force-high\n",
        ),
        (
            LIVE,
            b"\n8 copying 3 3\n8 switched 3 3\n8 copied 3 3\n9 crashed 1\n10 promoted 2 2 3 4\n11 accepted 4\n12 publishing\n12 published 2 5\n13 copying 3 5\n13 switched 3 5\n13 copied 3 5\n14 opened 3 0 5\n14 answer 3 0 5 1 1:a\n15 files 3 _10000.docs _10000.post _10000.si _10000_1z141z5.liv\n",
        ),
        (
            LOGGED,
            b"\n8 accepted 3\n9 crashed 1\n10 promoted 2 2 3 4\n10 accepted 4\n10 accepted 5\n11 publishing\n11 published 2 5\n12 opened 2 0 5\n12 answer 2 0 5 3 1:a 1:b 1:c\n",
        ),
        (
            LOST,
            b"\n7 accepted 3\n8 crashed 1\n9 promoted 2 2 3 4\n10 refused none\n11 opened 2 0 4\n11 answer 2 0 4 1 1:a\n",
        ),
        (
            REFUSED,
            b"2 refused primary-up\n3 crashed 1\n4 refused down\n5 refused force-low 1\n6 refused force-high\n",
        ),
    ];
    each_ends(&rt, rt.alloc(), rows)
}

// A ticket holds a version whose segments are merged since.
const HELD: &[u8] =
    b"nodes 2\n1 put a red fox\n1 publish\n1 copy 2\n1 open 2 7\n1 put b red hen\n1 publish\n1 merge 2\n1 drain 9\n1 publish\n1 copy 2\n1 ask 7 red\n1 files 2\n1 close 7\n1 files 2\n";

// What a search read is given back: behind two versions its node has the files of the last one alone.
const SEARCHED: &[u8] =
    b"nodes 2\n1 put a x\n1 publish\n1 copy 2\n1 search 2 x\n1 put b x\n1 publish\n1 merge 2\n1 drain 9\n1 publish\n1 copy 2\n1 search 2 x\n1 files 2\n";

// A deletion between a merge's start and its cut-over.
const DELETED: &[u8] =
    b"nodes 2\n1 put a cat\n1 publish\n1 put b cat\n1 publish\n1 merge 2\n1 delete a\n1 publish\n1 drain 9\n1 publish\n1 search 1 cat\n1 files 1\n";

// A merged segment that no point takes.
const UNTAKEN: &[u8] =
    b"nodes 2\n1 put a cat\n1 publish\n1 put b cat\n1 publish\n1 merge 2\n1 drain 2\n1 files 2\n1 delete a\n1 delete b\n1 publish\n1 drain 1\n1 publish\n1 copy 2\n1 files 2\n";

// The end of a phase does the tasks that are left.
const JOINED: &[u8] =
    b"nodes 2\n1 put a x\n1 publish\n1 put b x\n1 publish\n1 merge 2\njoin\n1 drain 1\n1 files 1\n";

// Each refusal that changes nothing, a merge of nothing among them.
const UNCHANGED: &[u8] =
    b"nodes 3\n1 open 2 1\n1 open 3 1\n1 close 1\n1 ask 1 x\n1 copy 1\n1 promote 2 auto\n1 reopen 2\n1 merge 2\n1 publish\n1 crash 1 0\n1 put a x\n1 crash 1 0\n1 settle\n1 promote 2 0\n1 copy 2\n";

// A replica is opened again, and the copy of another merge has the number of one that went with the crash.
const NUMBERED_AGAIN: &[u8] =
    b"nodes 2\n1 put a x\n1 publish\n1 put b x\n1 publish\n1 put c x\n1 publish\n1 put d x\n1 publish\n1 merge 2\n1 merge 2\n1 drain 1\n1 crash 2 0\n1 reopen 2\n1 drain 1\n1 drain 1\n1 files 2\n1 drain 1\n1 files 2\n1 drain 9\n1 publish\n1 copy 2\n1 files 2\n";

#[test]
fn merges(rt: HostRuntime) -> Result<(), Fail> {
    let rows: &[(&[u8], &[u8])] = &[
        (
            HELD,
            b"\n8 merging _10002\n9 drained 3\n10 publishing\n10 published 1 4\n11 copying 2 4\n11 switched 2 4\n11 copied 2 4\n12 asking 2 7 2\n12 answer 2 7 2 1 1:a\n13 files 2 _10000.docs _10000.post _10000.si _10002.docs _10002.post _10002.si\n14 closed 2 7\n15 files 2 _10002.docs _10002.post _10002.si\n",
        ),
        (
            SEARCHED,
            b"\n11 copied 2 4\n12 opened 2 0 4\n12 answer 2 0 4 2 1:a 1:b\n13 files 2 _10002.docs _10002.post _10002.si\n",
        ),
        (
            DELETED,
            b"\n6 merging _10002\n7 accepted 3\n8 publishing\n8 published 1 4\n9 drained 3\n10 publishing\n10 published 1 5\n11 opened 1 0 5\n11 answer 1 0 5 1 1:b\n12 files 1 _10002.docs _10002.post _10002.si _10002_1.liv\n",
        ),
        (
            UNTAKEN,
            b"\n7 drained 2\n8 files 2 _10002.docs _10002.post _10002.si\n9 accepted 3\n10 accepted 4\n11 publishing\n11 published 1 4\n12 drained 1\n13 publishing\n13 published 1 5\n14 copying 2 5\n14 switched 2 5\n14 copied 2 5\n15 files 2\n",
        ),
        (
            JOINED,
            b"\n8 drained 0\n9 files 1 _10000.docs _10000.post _10000.si _10001.docs _10001.post _10001.si _10002.docs _10002.post _10002.si\n",
        ),
        (
            UNCHANGED,
            b"2 opened 2 1 1\n3 refused name-used\n4 closed 2 1\n5 refused no-ticket\n6 refused primary\n7 refused primary-up\n8 refused up\n9 refused none\n10 refused none\n11 crashed 1\n12 refused no-primary\n13 refused down\n14 refused no-primary\n15 refused force-low 1\n16 refused no-primary\n",
        ),
        (
            NUMBERED_AGAIN,
            b"\n15 drained 1\n16 drained 1\n17 files 2\n18 drained 1\n19 files 2 _10005.docs _10005.post _10005.si\n20 drained 2\n21 publishing\n21 published 1 6\n22 copying 2 6\n22 switched 2 6\n22 copied 2 6\n23 files 2 _10004.docs _10004.post _10004.si _10005.docs _10005.post _10005.si\n",
        ),
    ];
    each_ends(&rt, rt.alloc(), rows)
}
