// Holds papers of documents 01 and 02 and writes their listings, one after the other, to standard output.
#![tactic(auto)]

use rules::Course;

// Each paper, and the course that it is of.
const PAPERS: [(Course, &[u8]); 27] = [
    // The 1-2-3 run of source document 000, section 2.3.
    (
        Course::Full,
        b"H 2 2 1\nG -\nK 0 0\nA 0 1 2\nS 0 1 2\nW 0 1 2\nN 0 0\nK 1 0\nA 1 1 3\nS 1 1 3\nW 1 1 3\nR 0 1 3\nA 1 1 100\nS 1 1 100\nW 1 1 100\nN 1 0\nA 1 0 1\nS 1 0 1\nW 1 0 1\nR 0 0 1\nL 0 0 1\nU 0 0 1\nU 0 1 2\nL 0 1 3\nU 0 1 3\nZ 194\n",
    ),
    // One paper whole.
    (
        Course::Full,
        b"H 2 1 1\nG 0\nK 0 0\nA 0 0 5\nS 0 0 5\nW 0 0 5\nN 0 0\nK 1 0\nR 1 0 5\nL 1 0 5\nU 1 0 5\nN 1 0\nZ 84\n",
    ),
    // Thread 1 goes first: sections are ordered by their last lock.
    (
        Course::Full,
        b"H 2 1 2\nG 1\nK 0 0\nK 1 1\nA 1 0 5\nS 1 0 5\nW 1 0 5\nN 1 1\nK 0 1\nR 0 0 5\nL 0 0 5\nU 0 0 5\nN 0 1\nN 0 0\nZ 96\n",
    ),
    // A use without a copy.
    (Course::Full, b"H 2 1 1\nG 0\nU 0 0 0\nZ 20\n"),
    // An early store, written before its assign.
    (
        Course::Full,
        b"H 2 2 2\nG -\nP 0 0 5\nW 0 0 5\nB 0 0 5\nZ 36\n",
    ),
    // A read from before the lock.
    (
        Course::Full,
        b"H 2 2 2\nG -\nR 0 0 0\nK 0 0\nL 0 0 0\nU 0 0 0\nZ 42\n",
    ),
    // A use outside its variable's guard: 20.
    (Course::Full, b"H 1 1 1\nG 0\nA 0 0 5\nZ 20\n"),
    // A lock after an unlock in the same section: 21.
    (
        Course::Full,
        b"H 1 1 2\nG 0\nK 0 0\nK 0 1\nN 0 1\nK 0 1\nN 0 1\nN 0 0\nZ 48\n",
    ),
    // A lock held at the end: 22.
    (Course::Full, b"H 1 1 1\nG 0\nK 0 0\nZ 18\n"),
    // No events.
    (Course::Full, b"H 1 1 0\nG -\nZ 12\n"),
    // Two volatile variables, guarded: events start at line 4, and the writes follow the assigns, not their stores.
    (
        Course::Full,
        b"H 2 2 1\nG 0 0\nV 0 1\nK 0 0\nA 0 0 5\nA 0 1 6\nS 0 1 6\nS 0 0 5\nW 0 0 5\nW 0 1 6\nN 0 0\nK 1 0\nR 1 1 6\nR 1 0 5\nL 1 1 6\nU 1 1 6\nL 1 0 5\nU 1 0 5\nN 1 0\nZ 140\n",
    ),
    // A line of volatile variables that names one twice; a use without its load; a write before that of an earlier assign; an early store.
    (Course::Full, b"H 1 1 0\nG -\nV 0 0\nZ 18\n"),
    (Course::Full, b"H 1 1 0\nG -\nV 0\nU 0 0 0\nZ 24\n"),
    (
        Course::Full,
        b"H 1 2 0\nG -\nV 0 1\nA 0 0 5\nA 0 1 6\nS 0 1 6\nS 0 0 5\nW 0 1 6\nZ 58\n",
    ),
    (Course::Full, b"H 1 1 0\nG -\nV 0\nP 0 0 5\nZ 24\n"),
    // A consumer waits for a value: Y ends its section, F notifies it, and C begins another.
    (
        Course::Full,
        b"H 2 1 1\nG 0\nK 0 0\nR 0 0 0\nL 0 0 0\nU 0 0 0\nY 0 0\nK 1 0\nA 1 0 5\nS 1 0 5\nW 1 0 5\nF 1 0 0\nN 1 0\nC 0 0\nR 0 0 5\nL 0 0 5\nU 0 0 5\nN 0 0\nZ 128\n",
    ),
    // Both holds are given up and taken again.
    (
        Course::Full,
        b"H 2 1 1\nG 0\nK 0 0\nK 0 0\nY 0 0\nK 1 0\nF 1 0 0\nN 1 0\nC 0 0\nN 0 0\nA 0 0 5\nS 0 0 5\nW 0 0 5\nN 0 0\nZ 92\n",
    ),
    // A thread that holds another lock waits and comes back: C is a lock after an unlock in its section, 21. One that still waits: 22.
    (
        Course::Full,
        b"H 2 1 2\nG 0\nK 0 0\nK 0 1\nY 0 1\nK 1 1\nF 1 1 0\nN 1 1\nC 0 1\nN 0 1\nN 0 0\nZ 68\n",
    ),
    (Course::Full, b"H 1 1 1\nG 0\nK 0 0\nY 0 0\nZ 24\n"),
    // Of a thread that waits an early store is written and a read is made; its assign is refused.
    (
        Course::Full,
        b"H 2 1 1\nG -\nK 0 0\nP 0 0 5\nY 0 0\nW 0 0 5\nR 0 0 5\nB 0 0 5\nZ 56\n",
    ),
    // A wait without the lock; a notification of a thread that does not wait, and of one that is not declared; a return without a notification.
    (Course::Full, b"H 2 1 1\nG -\nY 0 0\nZ 18\n"),
    (Course::Full, b"H 2 1 1\nG -\nK 0 0\nF 0 0 1\nZ 26\n"),
    (Course::Full, b"H 2 1 1\nG -\nK 0 0\nF 0 0 2\nZ 26\n"),
    (Course::Full, b"H 2 1 1\nG -\nK 0 0\nY 0 0\nC 0 0\nZ 30\n"),
    // The most that a head of the short course declares.
    (Course::Short, b"H 2 4 2\nG -\nZ 12\n"),
    // Three threads are over its limits, whatever line 2 is; nine are in no head.
    (Course::Short, b"H 3 1 1\nG\nZ 10\n"),
    (Course::Short, b"H 9 1 1\nG -\nZ 12\n"),
];

fn main(rt: HostRuntime) {
    for (course, paper) in PAPERS {
        let _written = print::print_listing(&rt, course, paper);
    }
}
