//! Recall of answers, against texts by hand.
use crate::runs::play_cases;
use std::alloc::AllocError;

/// Two answers of two numbers, (0, 2) and (5, 1); two true rows of one number, (2) and (5); and a row of one number, which is -1.
const FILES: &str = "
file found 2 0 0 0 0 0 0 0 2 0 0 0 2 0 0 0 5 0 0 0 1 0 0 0
file first 2 0 0 0 0 0 0 0 2 0 0 0
file truth 1 0 0 0 2 0 0 0 1 0 0 0 5 0 0 0
file one 1 0 0 0 2 0 0 0
file negative 1 0 0 0 255 255 255 255
file none
file cut 1 0 0 0 2 0 0 0 1 0 0 0 5 0
";

/// Hits that are counted, files without a pair, and each read that fails in turn.
const CASES: &str = "
# hits are counted
> recall found truth 1
| recall 1 hits 1 rows 2
= Done

# hits are counted
> recall found truth 2
| recall 2 hits 2 rows 2
= Done

# hits are counted
> recall found truth 1000
| recall 1000 hits 2 rows 2
= Done

# hits are counted
> recall truth truth 1
| recall 1 hits 2 rows 2
= Done

# hits are counted
> recall negative negative 1
| recall 1 hits 0 rows 1
= Done

# hits are counted
> recall none none 9
| recall 9 hits 0 rows 0
= Done

# the rows are no pairs, or a file is faulty
> recall first truth 1
| stop malformed truth at 8
= Malformed

# the rows are no pairs, or a file is faulty
> recall found one 1
| stop malformed truth at 8
= Malformed

# the rows are no pairs, or a file is faulty
> recall found none 1
| stop malformed truth at 0
= Malformed

# the rows are no pairs, or a file is faulty
> recall none truth 1
| stop malformed truth at 0
= Malformed

# the rows are no pairs, or a file is faulty
> recall first cut 1
| stop malformed truth at 12
= Malformed

# the rows are no pairs, or a file is faulty
> recall cut no 1
| stop malformed found at 12
= Malformed

# a file is missing
> recall no no 1
| stop missing found
= Missing

# a file is missing
> recall first no 1
| stop missing truth
= Missing

# these words fit no command
> recall found truth
| stop usage
= Usage

# these words fit no command
> recall found truth 1 1
| stop usage
= Usage

# these words fit no command
> recall found truth 0
| stop usage
= Usage

# these words fit no command
> recall found truth 1001
| stop usage
= Usage

# these words fit no command
> recall  truth 1
| stop usage
= Usage

# read 1 fails
fail 1 0
> recall found truth 1
| stop read found
= ReadFault
faults 1 0

# read 2 fails
fail 2 0
> recall found truth 1
| stop read found
= ReadFault
faults 1 0

# read 3 fails
fail 3 0
> recall found truth 1
| stop read truth
= ReadFault
faults 1 0

# read 4 fails
fail 4 0
> recall found truth 1
| stop read truth
= ReadFault
faults 1 0

# read 5 fails
fail 5 0
> recall found truth 1
| stop read found
= ReadFault
faults 1 0

# read 6 fails
fail 6 0
> recall found truth 1
| stop read truth
= ReadFault
faults 1 0

# read 7 fails
fail 7 0
> recall found truth 1
| stop read found
= ReadFault
faults 1 0

# read 8 fails
fail 8 0
> recall found truth 1
| stop read truth
= ReadFault
faults 1 0

# the read that fails is behind the last one
fail 9 0
> recall found truth 1
| recall 1 hits 1 rows 2
= Done
";

#[test]
fn answers_are_compared_with_the_truth(rt: HostRuntime) -> Result<(), AllocError> {
    play_cases(&rt, FILES, CASES)
}
