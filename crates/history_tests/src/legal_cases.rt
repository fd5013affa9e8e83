//! Histories, each with the rule that its last entry breaks.

use documents::{Answer, Hit, Op, Query};
use file_names::file_name;
use history_rules::{Cause, Entry, Event, FaultKind, FaultPlan, History, Verdict};
use nrt_base::{
    At, Doc, Gen, Key, LaneNo, LineNo, List, NoMemory, NodeNo, SegNo, Text, TicketNo, Version, Word,
};
use point_history::legal;
use std::alloc::Global;
use std::test::Fail;

/// Histories of three nodes, one a line: the rule that the last entry breaks, or 0 where none does; how it begins;
/// and its further entries, each a lane, a line and the event as in a report. Every query is the word `x`.
const CASES: &str = "\
1 start: 1 2 accepted 2 put_a
1 vacant: 1 6 accepted 2 put_b
1 published: 1 4 accepted 1 put_b
1 published: 1 4 planned disk 1 1; 1 5 fault 1 disk; 1 5 accepted 2 put_b
1 published: 1 4 planned stop 1 1; 1 5 fault 1 stop; 1 5 accepted 2 put_b
1 copied: 1 5 planned disk 2 1; 1 6 fault 2 disk; 1 6 accepted 2 put_b
2 vacant: 1 6 publishing
2 start: 1 2 accepted 1 put_a; 1 3 publishing; 2 4 publishing
2 start: 1 2 crashed 1; 1 3 publishing
2 published: 1 4 accepted 2 put_b; 1 5 planned disk 1 1; 1 6 fault 1 disk; 1 6 publishing
2 published: 1 4 accepted 2 put_b; 1 5 planned stop 1 1; 1 6 fault 1 stop; 1 6 publishing
2 published: 1 4 accepted 2 put_b; 1 5 planned disk 2 1; 1 6 fault 2 disk; 1 6 publishing
3 start: 1 2 accepted 1 put_a; 1 3 published 1 2
3 start: 1 2 accepted 1 put_a; 1 3 publishing; 1 3 published 1 3
3 start: 1 2 accepted 1 put_a; 1 3 publishing; 1 3 published 2 2
2 published: 1 4 publishing
2 start: 1 2 publishing
2 two: 1 7 merging 1679618; 1 8 publishing; 1 8 published 1 4; 1 9 publishing
3 start: 1 2 accepted 1 put_a; 1 3 publishing; 2 4 crashed 1; 1 3 published 1 2
4 published: 1 4 copying 1 2
4 published: 1 4 copying 2 1
4 published: 1 4 copying 4 2
4 vacant: 1 6 copying 3 2
4 down: 1 6 copying 2 2
4 published: 1 4 copying 2 2; 2 5 copying 2 2
4 copied: 1 5 copying 2 2; 2 6 copying 2 2
4 published: 1 4 copying 2 2; 1 4 switched 2 2; 2 5 copying 2 2
5 published: 1 4 switched 2 2
5 two: 1 7 copying 2 3; 1 7 switched 2 2
5 published: 1 4 copying 2 2; 1 4 switched 3 2
5 published: 1 4 copying 2 2; 1 4 switched 2 3
5 published: 1 4 copying 2 2; 2 5 crashed 1; 1 4 switched 2 2
5 promoted: 1 7 copying 3 3; 1 7 switched 3 2
5 published: 1 4 copying 2 2; 2 5 accepted 2 put_b; 2 6 publishing; 2 6 published 1 3; 1 4 switched 2 3
5 published: 1 4 copying 3 2; 2 5 accepted 2 put_b; 2 6 publishing; 2 6 published 1 3; 1 4 switched 3 3
5 two: 1 7 settling 3; 1 7 switched 3 2
5 down: 1 6 settling 2; 2 7 reopened 2 1; 1 6 switched 2 2
5 two: 1 7 crashed 3; 1 8 settling 3; 2 9 reopened 3 1; 1 8 switched 3 3
5 promoted: 1 7 settling 3; 2 8 reopened 1 1; 1 7 switched 1 3
5 copied: 1 5 settling 2; 2 6 accepted 2 put_b; 2 7 publishing; 2 7 published 1 3; 1 5 switched 2 3
5 published: 1 4 settling 2; 2 5 copying 2 2; 2 5 switched 2 2; 2 6 accepted 2 put_b; 2 7 publishing; 2 7 published 1 3; 1 4 switched 2 3
5 published: 1 4 settling 2; 2 5 copying 3 2; 2 5 switched 3 2; 2 6 accepted 2 put_b; 2 7 publishing; 2 7 published 1 3; 1 4 switched 3 3
5 published: 1 4 copying 2 2; 2 5 accepted 2 put_b; 2 6 publishing; 2 6 published 1 3; 2 7 copying 2 3; 1 4 switched 2 2
5 published: 1 4 copying 3 2; 2 5 accepted 2 put_b; 2 6 publishing; 2 6 published 1 3; 2 7 copying 3 3; 1 4 switched 3 2
5 published: 1 4 settling 2; 2 5 accepted 2 put_b; 2 6 publishing; 2 6 published 1 3; 2 7 copying 2 3; 1 4 switched 2 2
5 published: 1 4 settling 2; 1 4 switched 3 2; 1 4 switched 2 2
5 promoted: 1 7 reopened 1 1; 1 8 settling 3; 1 8 switched 3 3; 1 8 switched 1 3
5 promoted: 1 7 reopened 1 1; 1 8 accepted 2 put_b; 1 9 publishing; 1 9 published 2 4; 2 10 settling 4; 2 10 switched 3 4; 2 10 switched 1 4
5 published: 1 4 planned link 2 1; 1 5 copying 2 2; 1 5 fault 2 link; 1 5 switched 2 2
5 published: 1 4 planned damage 2 1 0; 1 5 copying 2 2; 1 5 fault 2 damage; 1 5 switched 2 2
5 published: 1 4 planned link 2 1; 1 5 settling 2; 1 5 fault 2 link; 1 5 switched 3 2
6 published: 1 4 copying 2 2; 1 4 copied 2 1
6 published: 1 4 copying 3 2; 1 4 copied 3 1
6 published: 1 4 copying 2 2; 1 4 copied 2 2
6 copied: 1 5 copied 2 2
6 published: 1 4 copying 2 2; 1 4 switched 2 2; 2 5 crashed 2; 1 4 copied 2 2
6 published: 1 4 copying 2 2; 2 5 accepted 2 put_b; 2 6 publishing; 2 6 published 1 3; 2 7 copying 2 3; 2 7 switched 2 3; 2 7 copied 2 3; 1 4 copied 2 3
6 published: 1 4 copying 2 2; 2 5 settling 2; 2 5 switched 2 2; 1 4 copied 2 2
6 published: 1 4 copying 3 2; 2 5 settling 2; 2 5 switched 3 2; 1 4 copied 3 2
6 two: 1 7 copying 2 3; 2 8 settling 3; 2 8 switched 2 3; 1 7 copied 2 3
6 published: 1 4 copying 2 2; 1 4 switched 2 2; 2 5 accepted 2 put_b; 1 4 copied 2 2
6 published: 1 4 copying 2 2; 1 4 switched 2 2; 2 5 copying 3 2; 1 4 copied 2 2
6 published: 1 4 copying 2 2; 1 4 switched 2 2; 2 5 copying 3 2; 2 5 switched 3 2; 1 4 copied 2 2
7 published: 1 4 settling 1
7 vacant: 1 6 settling 2
7 published: 1 4 settling 2; 1 4 settled 2
7 copied: 1 5 settling 2; 1 5 settled 2
7 copied: 1 5 settling 2; 1 5 settled 1
7 published: 1 4 planned disk 1 1; 1 5 fault 1 disk; 1 5 settling 2
7 published: 1 4 planned stop 1 1; 1 5 fault 1 stop; 1 5 settling 2
7 published: 1 4 planned disk 2 1; 1 5 fault 2 disk; 1 5 settling 2
7 published: 1 4 planned link 3 1; 1 5 settling 2; 1 5 fault 3 link; 2 6 copying 2 2; 2 6 switched 2 2; 2 6 copied 2 2; 2 7 copying 3 2; 2 7 switched 3 2; 2 7 copied 3 2; 1 5 settled 2
7 published: 1 4 planned damage 2 1 0; 1 5 settling 2; 1 5 fault 2 damage; 2 6 copying 2 2; 2 6 switched 2 2; 2 6 copied 2 2; 2 7 copying 3 2; 2 7 switched 3 2; 2 7 copied 3 2; 1 5 settled 2
7 copied: 1 5 planned damage 3 1 0; 1 6 settling 2; 1 6 fault 3 damage; 2 7 copying 3 2; 2 7 switched 3 2; 2 7 copied 3 2; 1 6 settled 2
8 copied: 1 5 opened 2 7 1
8 down: 1 6 opened 2 7 2
8 opened: 1 6 opened 3 7 1
8 copied: 1 5 opened 2 0 1
8 copied: 1 5 planned disk 2 1; 1 6 fault 2 disk; 1 6 opened 2 7 2
8 copied: 1 5 planned stop 2 1; 1 6 fault 2 stop; 1 6 opened 2 0 2
8 copied: 1 5 planned stop 1 1; 1 6 fault 1 stop; 1 6 opened 2 7 2
9 copied: 1 5 asking 2 7 2
9 opened: 2 6 asking 2 7 2
9 opened: 1 6 closed 2 7; 1 7 asking 2 7 2
9 opened: 1 6 asking 2 7 1
9 opened: 1 6 crashed 2; 1 7 asking 2 7 2
9 opened: 1 6 planned disk 2 1; 1 7 fault 2 disk; 1 7 asking 2 7 2
9 opened: 1 6 planned stop 2 1; 1 7 fault 2 stop; 1 7 asking 2 7 2
9 opened: 1 6 planned stop 3 1; 1 7 fault 3 stop; 1 7 asking 2 7 2
10 copied: 1 5 opened 2 0 2; 1 5 answer 2 0 2 0
10 copied: 1 5 opened 2 0 2; 1 5 answer 2 0 2 1 1:b
10 copied: 1 5 answer 2 0 2 1 1:a
10 copied: 1 5 opened 2 0 2; 1 5 answer 2 0 2 1 2:a
10 copied: 1 5 opened 2 0 2; 1 5 answer 2 0 1 0
10 two: 1 7 opened 1 0 3; 1 7 answer 1 0 3 2 1:b 1:a
10 two: 1 7 accepted 3 drop_x; 1 8 publishing; 1 8 published 1 4; 1 9 opened 1 0 4; 1 9 answer 1 0 4 2 1:a 1:b
10 copied: 1 5 opened 2 0 2; 2 6 crashed 2; 1 5 answer 2 0 2 1 1:a
11 copied: 1 5 closed 2 7
11 opened: 2 6 closed 2 7
11 opened: 1 6 closed 3 7
12 copied: 1 5 committing 2 1
12 down: 1 6 committing 2 2
12 copied: 1 5 committing 2 2; 2 6 committing 2 2
12 copied: 1 5 planned disk 2 1; 1 6 fault 2 disk; 1 6 committing 2 2
12 copied: 1 5 planned stop 2 1; 1 6 fault 2 stop; 1 6 committing 2 2
12 copied: 1 5 planned disk 1 1; 1 6 fault 1 disk; 1 6 committing 2 2
13 copied: 1 5 committed 2 2
13 copied: 1 5 committing 2 2; 1 5 committed 2 1
13 copied: 1 5 committing 2 2; 2 6 crashed 2; 1 5 committed 2 2
13 copied: 1 5 committing 2 2; 1 5 committed 3 1
13 copied: 1 5 committing 2 2; 2 6 accepted 2 put_b; 2 7 publishing; 2 7 published 1 3; 2 8 copying 2 3; 2 8 switched 2 3; 1 5 committed 2 3
13 published: 1 4 committing 1 2; 2 5 accepted 2 put_b; 2 6 publishing; 2 6 published 1 3; 1 4 committed 1 3
13 vacant: 1 6 committing 2 2; 2 7 promoted 2 2 2 3; 1 6 committed 2 3
14 down: 1 6 crashed 2
14 start: 1 2 crashed 4
14 start: 1 2 crashed 0
15 start: 1 2 reopened 2 1
15 down: 1 6 reopened 2 2
15 committed: 1 6 crashed 2; 1 7 reopened 2 1
15 copied: 1 5 committing 2 2; 2 6 accepted 2 put_b; 2 7 publishing; 2 7 published 1 3; 2 8 copying 2 3; 2 8 switched 2 3; 2 9 crashed 2; 2 10 reopened 2 3
15 published: 1 4 committing 1 2; 2 5 accepted 2 put_b; 2 6 publishing; 2 6 published 1 3; 2 7 crashed 1; 2 8 reopened 1 3
15 vacant: 1 6 committing 2 2; 2 7 promoted 2 2 2 3; 2 8 crashed 2; 2 9 reopened 2 3
15 down: 1 6 planned disk 2 1; 1 7 fault 2 disk; 1 7 reopened 2 1
15 down: 1 6 planned stop 2 1; 1 7 fault 2 stop; 1 7 reopened 2 1
15 committed: 1 6 crashed 2; 1 7 planned stop 2 1; 1 8 fault 2 stop; 1 8 reopened 2 2
16 copied: 1 5 promoted 2 2 2 3
16 vacant: 1 6 promoted 1 2 2 3
16 vacant: 1 6 promoted 2 3 2 3
16 vacant: 1 6 promoted 2 2 1 2
16 vacant: 1 6 promoted 2 2 2 2
16 vacant: 1 6 promoted 2 2 4611686018427387904 4611686018427387905
17 published: 1 4 merging 1679616
17 vacant: 1 6 merging 1679617
17 published: 1 4 merging 1679617; 1 5 merging 1679617
17 published: 1 4 planned disk 1 1; 1 5 fault 1 disk; 1 5 merging 1679617
17 published: 1 4 planned stop 1 1; 1 5 fault 1 stop; 1 5 merging 1679617
17 two: 1 7 planned disk 2 1; 1 8 fault 2 disk; 1 8 merging 1679618
18 down: 1 6 files 2
18 copied: 1 5 files 2 _10000.si
18 copied: 1 5 files 2 b.docs a.si
18 committed: 1 6 files 2 _10000.docs
18 opened: 1 6 accepted 2 delete_a; 1 7 publishing; 1 7 published 1 3; 1 8 copying 2 3; 1 8 switched 2 3; 1 9 files 2
18 copied: 1 5 committing 2 2; 2 6 crashed 2; 2 7 reopened 2 2; 2 8 files 2 _10000.docs
18 published: 1 4 committing 1 2; 2 5 crashed 1; 2 6 reopened 1 2; 2 7 files 1 _10000.docs
18 two: 1 7 committing 1 3; 2 8 crashed 1; 2 9 reopened 1 3; 2 10 files 1 _10000.docs _10001.docs
18 published: 1 4 files 1 _10000.docs a
18 published: 1 4 files 1 _10000.docs segments_0
18 published: 1 4 files 1 _010000.docs _10000.docs
18 published: 1 4 files 1 _10000.docs _10001.si
18 published: 1 4 files 1 _10000.docs _10001.docs_1.tmp
18 published: 1 4 files 1 _10000.docs _10001_1.liv
18 promoted: 1 7 files 2 _10000.docs _20000.docs
18 published: 1 4 planned disk 1 1; 1 5 fault 1 disk; 1 5 files 1 _10000.docs
18 published: 1 4 planned stop 1 1; 1 5 fault 1 stop; 1 5 files 1 _10000.docs
18 copied: 1 5 planned disk 1 1; 1 6 fault 1 disk; 1 6 files 2 _10000.docs
19 start: 1 2 fault 2 link
19 start: 1 2 planned link 2 1; 1 3 crashed 2; 1 4 reopened 2 1; 1 5 fault 2 link
19 published: 1 4 planned link 2 1; 1 5 copying 2 2; 1 5 fault 2 link; 1 5 fault 2 link
19 start: 1 2 planned link 2 1; 1 3 fault 2 disk
19 published: 1 4 planned disk 1 1; 1 3 fault 1 disk
19 published: 1 4 planned stop 1 1; 1 2 fault 1 stop
19 published: 1 4 planned disk 1 1; 1 5 refused none; 1 5 fault 1 disk
19 start: 1 2 planned link 2 1; 1 3 fault 2 link
19 published: 1 4 planned link 3 1; 1 5 copying 2 2; 1 5 fault 3 link
19 published: 1 4 planned link 1 1; 1 5 settling 2; 1 5 fault 1 link
19 published: 1 4 planned damage 2 1 36; 1 5 opened 2 0 1; 1 5 fault 2 damage
19 two: 1 7 planned link 1 1; 1 8 merging 1679618; 1 8 fault 1 link
19 down: 1 6 planned disk 2 1; 1 7 opened 1 0 2; 1 7 fault 2 disk
19 down: 1 6 planned stop 2 1; 1 7 opened 1 0 2; 1 7 fault 2 stop
19 down: 1 6 planned disk 2 1; 1 7 copying 3 2; 1 7 fault 2 disk
20 published: 1 4 copying 2 2; 1 4 refused lost
20 published: 1 4 planned link 2 1; 1 5 copying 2 2; 1 5 fault 2 link; 2 6 crashed 2; 1 5 refused link-fault
20 published: 1 4 copying 2 2; 1 4 refused link-fault
20 published: 1 4 copying 2 2; 1 4 refused down
20 published: 1 4 copying 2 2; 1 4 switched 2 2; 2 5 crashed 2; 1 4 refused lost
20 published: 1 4 copying 2 2; 1 4 refused cancelled 3
20 two: 1 7 copying 2 3; 2 8 settling 3; 1 7 refused cancelled 3
20 copied: 1 5 copying 3 2; 2 6 accepted 2 put_b; 2 7 publishing; 2 7 published 1 3; 2 8 copying 2 3; 1 5 refused cancelled 3
20 published: 1 4 copying 2 2; 2 5 crashed 3; 1 4 refused lost
20 published: 1 4 planned damage 2 1 36; 1 5 copying 2 2; 1 5 fault 2 damage; 1 5 refused link-fault
20 published: 1 4 copying 2 2; 1 4 refused damaged _10000.docs
20 published: 1 4 planned link 2 1; 1 5 copying 2 2; 1 5 fault 2 link; 1 5 refused damaged _10000.docs
20 published: 1 4 planned damage 2 1 36; 1 5 copying 2 2; 2 6 settling 2; 2 6 fault 2 damage; 1 5 refused damaged _10000.docs
20 published: 1 4 copying 2 2; 1 4 refused disk-fault
20 published: 1 4 planned link 2 1; 1 5 copying 2 2; 1 5 fault 2 link; 1 5 refused disk-fault
20 published: 1 4 planned disk 3 1; 1 5 copying 2 2; 1 5 fault 3 disk; 1 5 refused disk-fault
20 two: 1 7 planned damage 2 1 36; 1 8 copying 2 3; 1 8 fault 2 damage; 1 8 refused damaged segments_1
20 two: 1 7 planned damage 2 1 36; 1 8 copying 2 3; 1 8 fault 2 damage; 1 8 refused damaged _10002.docs
20 two: 1 7 planned damage 2 1 36; 1 8 copying 2 3; 1 8 fault 2 damage; 1 8 refused damaged _10001.docs_1.tmp
20 start: 1 2 planned disk 1 1; 1 3 fault 1 disk; 1 3 refused none
20 down: 1 6 planned stop 2 1; 1 7 fault 2 stop; 1 7 refused down
20 start: 1 2 refused disk-fault
20 published: 1 4 planned link 2 1; 1 5 planned damage 2 1 0; 1 6 copying 2 2; 1 6 fault 2 link; 1 6 fault 2 damage; 1 6 refused damaged _10000.docs
20 copied: 1 5 planned disk 2 1; 1 6 committing 2 2; 1 6 fault 2 disk; 2 7 accepted 2 put_b; 1 6 refused disk-fault
20 published: 1 4 planned link 2 1; 1 5 planned damage 2 1 0; 1 6 settling 2; 1 6 fault 2 link; 1 6 fault 2 damage; 1 6 refused damaged _10000.docs
20 published: 1 4 planned link 3 1; 1 5 planned damage 3 1 0; 1 6 settling 2; 1 6 switched 2 2; 1 6 fault 3 link; 1 6 fault 3 damage; 1 6 refused damaged _10000.docs
20 published: 1 4 planned disk 2 1; 1 5 copying 2 2; 1 5 fault 2 disk; 2 6 accepted 2 put_b; 1 5 refused disk-fault
20 published: 1 4 planned disk 2 1; 1 5 fault 2 disk; 2 6 accepted 2 put_b; 1 5 copying 2 2; 1 5 refused disk-fault
21 start: 1 2 drained 1 9
21 two: 1 7 merging 1679618; 1 8 drained 5 9
21 two: 1 7 merging 1679618; 1 8 drained 4 9; 1 9 drained 1 9
21 two: 1 7 planned disk 1 1; 1 8 fault 1 disk; 1 8 drained 0 9
21 two: 1 7 planned stop 1 1; 1 8 fault 1 stop; 1 8 drained 0 9
21 two: 1 7 planned disk 2 1; 1 8 fault 2 disk; 1 8 drained 0 9
22 start: 1 2 planned disk 1 1; 1 3 fault 1 disk; 1 3 planned disk 1 1
22 start: 1 2 planned stop 1 1; 1 3 fault 1 stop; 1 3 planned link 2 1
22 start: 1 2 planned disk 2 1; 1 3 fault 2 disk; 1 3 planned stop 1 1
0 published: 1 4 planned link 2 1; 1 5 settling 2; 1 5 fault 2 link; 2 6 crashed 2; 1 5 switched 3 2; 1 5 settled 2
0 published: 1 4 planned link 2 1; 1 5 copying 2 2; 1 5 fault 2 link; 2 6 copying 3 2; 2 6 switched 3 2; 2 6 copied 3 2
0 published: 1 4 accepted 2 put_b; 1 5 planned disk 2 1; 2 6 copying 2 2; 2 6 fault 2 disk; 2 6 refused disk-fault; 1 7 publishing
0 published: 1 4 planned disk 2 1; 1 5 fault 2 disk; 1 5 copying 2 2; 1 5 refused disk-fault
0 published: 1 4 copying 2 2; 2 5 accepted 2 put_b; 2 6 publishing; 2 6 published 1 3; 2 7 planned disk 1 1; 2 8 fault 1 disk; 2 8 copying 2 3; 2 8 refused disk-fault; 1 4 switched 2 2; 1 4 copied 2 2
0 published: 1 4 planned link 2 1; 1 5 planned damage 2 1 0; 1 6 copying 2 2; 1 6 fault 2 link; 1 6 fault 2 damage; 1 6 refused link-fault
0 published: 1 4 planned link 2 1; 1 5 planned damage 3 1 0; 1 6 settling 2; 1 6 fault 2 link; 2 7 crashed 2; 1 6 fault 3 damage; 1 6 refused damaged _10000.docs
0 copied: 1 5 planned disk 2 1; 1 6 committing 2 2; 2 7 accepted 2 put_b; 1 6 fault 2 disk; 1 6 refused disk-fault
0 copied: 1 5 opened 2 0 2; 1 5 answer 2 0 2 1 1:a
0 two: 1 7 accepted 3 drop_x; 1 8 publishing; 1 8 published 1 4; 1 9 opened 1 0 4; 1 9 answer 1 0 4 0
0 two: 1 7 opened 2 0 2; 1 7 answer 2 0 2 1 1:a; 1 8 opened 1 0 3; 1 8 answer 1 0 3 2 1:a 1:b; 1 9 opened 3 0 1; 1 9 answer 3 0 1 0
0 down: 1 6 refused down; 1 7 reopened 2 1; 1 8 opened 2 0 1; 1 8 answer 2 0 1 0; 1 9 files 2
0 committed: 1 6 crashed 2; 1 7 reopened 2 2; 1 8 files 2 _10000.docs _10000.post _10000.si segments_1
0 stopped: 1 9 committing 2 3; 1 9 fault 2 stop; 1 9 refused disk-fault; 1 10 crashed 2; 1 11 reopened 2 3
0 stopped: 1 9 committing 2 3; 1 9 fault 2 stop; 1 9 refused disk-fault; 1 10 crashed 2; 1 11 reopened 2 2
0 stopped: 1 9 committing 2 3; 1 9 fault 2 stop; 1 9 committed 2 3; 1 10 crashed 2; 1 11 reopened 2 3
0 promoted: 1 7 accepted 2 put_b; 1 8 publishing; 1 8 published 2 4; 1 9 opened 2 0 4; 1 9 answer 2 0 4 2 1:a 1:b; 1 10 reopened 1 1; 1 11 copying 1 4; 1 11 switched 1 4; 1 11 copied 1 4
0 vacant: 1 6 refused no-primary; 1 7 refused force-low 2; 1 8 refused force-high; 1 9 promoted 2 2 4611686018427387903 4611686018427387904
0 published: 1 4 settling 2; 1 4 switched 2 2; 1 4 switched 3 2; 1 4 settled 2
0 published: 1 4 settling 2; 1 4 switched 2 2; 2 5 crashed 3; 1 4 settled 2
0 opened: 1 6 accepted 2 put_b; 1 7 publishing; 1 7 published 1 3; 1 8 copying 2 3; 1 8 switched 2 3; 1 9 asking 2 7 2; 1 9 answer 2 7 2 1 1:a; 1 10 refused name-used; 1 11 closed 2 7; 1 12 refused no-ticket
0 two: 1 7 planned link 2 1; 1 8 copying 2 3; 1 8 fault 2 link; 1 8 refused link-fault; 1 9 planned damage 2 1 36; 1 10 copying 2 3; 1 10 fault 2 damage; 1 10 refused damaged _10001.docs
0 two: 1 7 planned disk 1 1; 1 8 copying 2 3; 1 8 fault 1 disk; 1 8 refused disk-fault; 1 9 planned stop 1 1; 1 10 fault 1 stop; 1 11 fault 1 stop
0 copied: 1 5 copying 3 2; 2 6 accepted 2 put_b; 2 7 publishing; 2 7 published 1 3; 2 8 copying 3 3; 1 5 refused cancelled 3
0 copied: 2 5 settling 2; 1 6 copying 3 2; 2 7 accepted 2 put_b; 2 8 publishing; 2 8 published 1 3; 1 6 refused cancelled 3
0 two: 1 7 copying 2 3; 2 8 crashed 1; 1 7 refused lost
0 two: 1 7 merging 1679618; 1 8 drained 3 9; 1 9 publishing; 1 9 published 1 4; 1 10 opened 1 0 4; 1 10 answer 1 0 4 2 1:a 1:b; 1 11 refused names-spent; 1 12 refused too-many-segments
0 start: 1 2 refused primary; 1 3 refused primary-up; 1 4 refused up; 1 5 refused none; 1 6 files 1
0 published: 1 4 copying 2 2; 2 5 accepted 2 put_b; 2 6 publishing; 2 6 published 1 3; 1 4 switched 2 2; 1 4 copied 2 2; 2 7 copying 2 3; 2 7 switched 2 3; 2 7 copied 2 3
0 published: 1 4 copying 2 2; 2 5 copying 3 2; 2 6 crashed 2; 2 7 reopened 2 1; 2 8 copying 2 2
0 copied: 1 5 copying 2 2; 1 5 copied 2 2
0 stopped: 1 9 committing 2 3; 1 9 fault 2 stop; 1 9 refused disk-fault; 1 10 committing 2 3; 2 11 accepted 3 put_b; 2 12 publishing; 2 12 published 1 4; 2 13 copying 2 4; 2 13 switched 2 4; 1 10 committed 2 4
0 stopped: 1 9 committing 2 3; 1 9 fault 2 stop; 1 9 refused disk-fault; 1 10 committing 2 3; 2 11 accepted 3 put_b; 2 12 publishing; 2 12 published 1 4; 2 13 copying 2 4; 2 13 switched 2 4; 2 14 crashed 2; 2 15 reopened 2 4
0 copied: 1 5 committing 2 2; 2 6 crashed 2; 2 7 reopened 2 2; 2 8 files 2 _10000.docs segments_1
0 down: 1 6 planned disk 2 1; 1 7 fault 2 disk; 1 7 refused disk-fault; 1 8 reopened 2 1
0 vacant: 1 6 planned stop 2 1; 1 7 fault 2 stop; 1 7 promoted 2 2 2 3; 1 7 accepted 2 put_b
0 published: 1 4 files 1 _10000.docs _10000.docs_1.tmp _10000.post _10000.si _10000_1.liv pending_segments_1 segments_1
0 promoted: 1 7 accepted 2 put_b; 1 8 publishing; 1 8 published 2 4; 1 9 files 2 _10000.docs _20000.docs
0 two: 1 7 planned link 2 1; 1 8 merging 1679618; 1 9 publishing; 1 9 published 1 4; 1 8 fault 2 link; 1 10 drained 3 9; 1 11 drained 1 9
0 published: 1 4 planned damage 3 1 0; 1 5 settling 2; 1 5 switched 2 2; 1 5 fault 3 damage; 1 5 refused damaged _10000.docs
";

const PUBLISHED: &str = "1 2 accepted 1 put_a; 1 3 publishing; 1 3 published 1 2";

const COPIED: &str = "1 4 copying 2 2; 1 4 switched 2 2; 1 4 copied 2 2";

const COMMITTED: &str = "2 5 committing 2 2; 2 5 committed 2 2";

const TWO: &str = "1 5 accepted 2 put_b; 1 6 publishing; 1 6 published 1 3";

const STOPPED: &str = "1 7 copying 2 3; 1 7 switched 2 3; 1 7 copied 2 3; 1 8 planned stop 2 5";

fn beginning(name: &str) -> [&'static str; 5] {
    match name {
        "published" => [PUBLISHED, "", "", "", ""],
        "copied" => [PUBLISHED, COPIED, "", "", ""],
        "two" => [PUBLISHED, COPIED, TWO, "", ""],
        "down" => [PUBLISHED, COPIED, "1 5 crashed 2", "", ""],
        "vacant" => [PUBLISHED, COPIED, "1 5 crashed 1", "", ""],
        "promoted" => [
            PUBLISHED,
            COPIED,
            "1 5 crashed 1; 1 6 promoted 2 2 2 3",
            "",
            "",
        ],
        "opened" => [PUBLISHED, COPIED, "1 5 opened 2 7 2", "", ""],
        "committed" => [PUBLISHED, COPIED, COMMITTED, "", ""],
        "stopped" => [PUBLISHED, COPIED, COMMITTED, TWO, STOPPED],
        _ => ["", "", "", "", ""],
    }
}

/// The words of an entry.
#[derive(Drop)]
struct Words<'a>(Vec<&'a str>);

impl<'a> Words<'a> {
    fn word(&self, i: usize) -> &'a str {
        self.0.get(i).copied().unwrap_or("")
    }

    fn number(&self, i: usize) -> u64 {
        self.word(i).parse::<u64>().unwrap_or(0)
    }

    fn small(&self, i: usize) -> u32 {
        u32::try_from(self.number(i)).unwrap_or(0)
    }

    fn node(&self, i: usize) -> NodeNo {
        NodeNo(u8::try_from(self.number(i)).unwrap_or(0))
    }

    fn version(&self, i: usize) -> Version {
        Version(self.number(i))
    }

    fn ticket(&self) -> TicketNo {
        TicketNo(u16::try_from(self.number(4)).unwrap_or(0))
    }
}

fn key(alloc: Global, name: &str) -> Result<Key, NoMemory> {
    if name == "a" {
        Key::new(alloc, b"a".as_slice())
    } else {
        Key::new(alloc, b"b".as_slice())
    }
}

fn hit(alloc: Global, text: &str) -> Result<Hit, NoMemory> {
    let (rank, name) = text.split_once(':').unwrap_or(("", ""));
    Ok(Hit {
        key: key(alloc, name)?,
        rank: rank.parse::<u32>().unwrap_or(0),
    })
}

fn op(alloc: Global, name: &str) -> Result<Op, NoMemory> {
    if name == "delete_a" {
        return Ok(Op::Delete(key(alloc, "a")?));
    }
    if name == "drop_x" {
        return Ok(Op::Drop(Word::new(alloc, b"x".as_slice())?));
    }
    let key = key(alloc, if name == "put_a" { "a" } else { "b" })?;
    let text = Text::new(alloc, b"x".as_slice())?;
    Ok(Op::Put(Doc { key, text }))
}

fn kind(name: &str) -> FaultKind {
    match name {
        "link" => FaultKind::Link,
        "damage" => FaultKind::Damage,
        "disk" => FaultKind::Disk,
        _ => FaultKind::Stop,
    }
}

fn plan(kind: FaultKind, k: u32, at: u32) -> FaultPlan {
    match kind {
        FaultKind::Link => FaultPlan::Link(k),
        FaultKind::Damage => FaultPlan::Damage(k, at),
        FaultKind::Disk => FaultPlan::Disk(k),
        FaultKind::Stop => FaultPlan::Stop(k),
    }
}

fn answered(alloc: Global, words: &Words<'_>) -> Result<Event, Fail> {
    let mut hits = Vec::new(alloc);
    for i in 7..words.0.len() {
        hits.push(hit(alloc, words.word(i))?)?;
    }
    Ok(Event::Answered {
        n: words.node(3),
        t: words.ticket(),
        v: words.version(5),
        query: Query::Word(Word::new(alloc, b"x".as_slice())?),
        answer: Answer {
            total: words.small(6),
            hits: List::from_vec(hits),
        },
    })
}

fn files(alloc: Global, words: &Words<'_>) -> Result<Event, Fail> {
    let mut names = Vec::new(alloc);
    for i in 4..words.0.len() {
        names.push(file_name(words.word(i).as_bytes())?)?;
    }
    Ok(Event::Files {
        n: words.node(3),
        names: List::from_vec(names),
    })
}

fn cause(words: &Words<'_>) -> Result<Cause, Fail> {
    Ok(match words.word(3) {
        "down" => Cause::Down,
        "primary" => Cause::Primary,
        "no-primary" => Cause::NoPrimary,
        "primary-up" => Cause::PrimaryUp,
        "force-low" => Cause::ForceLow(words.version(4)),
        "no-ticket" => Cause::NoTicket,
        "lost" => Cause::Lost,
        "cancelled" => Cause::Cancelled(words.version(4)),
        "link-fault" => Cause::LinkFault,
        "damaged" => Cause::Damaged(file_name(words.word(4).as_bytes())?),
        "disk-fault" => Cause::DiskFault,
        "none" => Cause::Nothing,
        "up" => Cause::Up,
        "name-used" => Cause::NameUsed,
        "names-spent" => Cause::NamesSpent,
        "too-many-segments" => Cause::TooManySegments,
        _ => Cause::ForceHigh,
    })
}

fn copying(words: &Words<'_>) -> Option<Event> {
    let n = words.node(3);
    let v = words.version(4);
    match words.word(2) {
        "copying" => Some(Event::Copying { n, v }),
        "switched" => Some(Event::Switched { n, v }),
        "copied" => Some(Event::Copied { n, v }),
        "committing" => Some(Event::Committing { n, v }),
        "committed" => Some(Event::Committed { n, v }),
        "reopened" => Some(Event::Reopened { n, v }),
        "crashed" => Some(Event::Crashed { n }),
        _ => None,
    }
}

fn searching(words: &Words<'_>) -> Option<Event> {
    let n = words.node(3);
    let t = words.ticket();
    let v = words.version(5);
    match words.word(2) {
        "opened" => Some(Event::Opened { n, t, v }),
        "asking" => Some(Event::Asking { n, t, v }),
        "closed" => Some(Event::Closed { n, t }),
        _ => None,
    }
}

fn event(alloc: Global, words: &Words<'_>) -> Result<Event, Fail> {
    if let Some(event) = copying(words) {
        return Ok(event);
    }
    if let Some(event) = searching(words) {
        return Ok(event);
    }
    let v = words.version(3);
    match words.word(2) {
        "accepted" => Ok(Event::Accepted {
            seq: words.small(3),
            op: op(alloc, words.word(4))?,
        }),
        "publishing" => Ok(Event::Publishing),
        "published" => Ok(Event::Published {
            generation: Gen(words.number(3)),
            v: words.version(4),
        }),
        "settling" => Ok(Event::Settling { v }),
        "settled" => Ok(Event::Settled { v }),
        "answer" => answered(alloc, words),
        "promoted" => Ok(Event::Promoted {
            n: words.node(3),
            generation: Gen(words.number(4)),
            forced: words.version(5),
            v: words.version(6),
        }),
        "merging" => Ok(Event::Merging {
            seg: SegNo(words.number(3)),
        }),
        "drained" => Ok(Event::Drained {
            done: words.small(3),
            most: words.small(4),
        }),
        "files" => files(alloc, words),
        "planned" => Ok(Event::Planned {
            n: words.node(4),
            plan: plan(kind(words.word(3)), words.small(5), words.small(6)),
        }),
        "fault" => Ok(Event::Fault {
            n: words.node(3),
            kind: kind(words.word(4)),
        }),
        "refused" => Ok(Event::Refused {
            cause: cause(words)?,
        }),
        other => Err(Fail::from(other)),
    }
}

fn push_entries(alloc: Global, text: &str, entries: &mut Vec<Entry>) -> Result<(), Fail> {
    for part in text.split(';') {
        let words = Words(part.split_whitespace().collect(alloc)?);
        if words.0.is_empty() {
            continue;
        }
        let at = At {
            lane: LaneNo(words.node(0).0),
            line: LineNo(words.small(1)),
        };
        let event = event(alloc, &words)?;
        entries.push(Entry { at, event })?;
    }
    Ok(())
}

fn verdict(alloc: Global, name: &str, further: &str) -> Result<(Verdict, usize), Fail> {
    let mut entries = Vec::new(alloc);
    for text in beginning(name) {
        push_entries(alloc, text, &mut entries)?;
    }
    push_entries(alloc, further, &mut entries)?;
    let len = entries.len();
    let history = History {
        nodes: 3,
        entries: List::from_vec(entries),
    };
    Ok((legal(alloc, &history)?, len))
}

#[test]
fn cases_are_judged(rt: HostRuntime) -> Result<(), Fail> {
    for case in CASES.lines() {
        let (rule, rest) = case.split_once(' ').ok_or("no rule")?;
        let (name, further) = rest.split_once(':').ok_or("no beginning")?;
        let rule = rule.parse::<u8>()?;
        let (found, len) = verdict(rt.alloc(), name, further)?;
        let want = if rule == 0 {
            Verdict::Legal
        } else {
            Verdict::Broken {
                at: len.saturating_sub(1),
                rule,
            }
        };
        assert_eq!(rt; found, want, "{case}");
    }
    Ok(())
}
