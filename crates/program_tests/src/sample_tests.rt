//! Samples against texts that a plain program of the definitions worked out.
use crate::runs::play_cases;
use std::alloc::AllocError;

/// Samples, and lines of them that fail.
const CASES: &str = "
# 1,000 rows from 1 on, twice
> sample 1 1000
| sample start 1 rows 1000 d 128 shape 6-6-4 g 8
| cells 954
| query 0 cells 1534 live 100 full 50
| best 94 998845
| query 1 cells 1422 live 100 full 50
| best 331 1002202
| query 2 cells 3056 live 100 full 42
| best 106 882847
| query 3 cells 2245 live 100 full 38
| best 766 820396
| query 4 cells 2899 live 100 full 42
| best 124 983360
| query 5 cells 2565 live 100 full 39
| best 491 939729
| query 6 cells 2485 live 100 full 44
| best 619 1020554
| query 7 cells 2320 live 100 full 38
| best 310 932987
| query 8 cells 2453 live 100 full 45
| best 831 942694
| query 9 cells 2888 live 100 full 39
| best 415 963549
| query 10 cells 2248 live 100 full 43
| best 782 1125062
| query 11 cells 2518 live 101 full 29
| best 786 862996
| query 12 cells 2666 live 100 full 44
| best 244 952679
| query 13 cells 2380 live 100 full 37
| best 425 1135419
| query 14 cells 1517 live 100 full 45
| best 548 923536
| query 15 cells 2420 live 100 full 43
| best 517 1121642
| end queries 16
= Done
> sample 1 1000
| sample start 1 rows 1000 d 128 shape 6-6-4 g 8
| cells 954
| query 0 cells 1534 live 100 full 50
| best 94 998845
| query 1 cells 1422 live 100 full 50
| best 331 1002202
| query 2 cells 3056 live 100 full 42
| best 106 882847
| query 3 cells 2245 live 100 full 38
| best 766 820396
| query 4 cells 2899 live 100 full 42
| best 124 983360
| query 5 cells 2565 live 100 full 39
| best 491 939729
| query 6 cells 2485 live 100 full 44
| best 619 1020554
| query 7 cells 2320 live 100 full 38
| best 310 932987
| query 8 cells 2453 live 100 full 45
| best 831 942694
| query 9 cells 2888 live 100 full 39
| best 415 963549
| query 10 cells 2248 live 100 full 43
| best 782 1125062
| query 11 cells 2518 live 101 full 29
| best 786 862996
| query 12 cells 2666 live 100 full 44
| best 244 952679
| query 13 cells 2380 live 100 full 37
| best 425 1135419
| query 14 cells 1517 live 100 full 45
| best 548 923536
| query 15 cells 2420 live 100 full 43
| best 517 1121642
| end queries 16
= Done

# one row from 0 on
> sample 0 1
| sample start 0 rows 1 d 128 shape 6-6-4 g 8
| cells 1
| query 0 cells 19394 live 1 full 1
| best 0 1343053
| query 1 cells 48200 live 1 full 1
| best 0 1319186
| query 2 cells 3072 live 1 full 1
| best 0 1466477
| query 3 cells 51779 live 1 full 1
| best 0 1609945
| query 4 cells 9098 live 1 full 1
| best 0 1467286
| query 5 cells 6799 live 1 full 1
| best 0 1404341
| query 6 cells 46 live 1 full 1
| best 0 1357607
| query 7 cells 29293 live 1 full 1
| best 0 1457920
| query 8 cells 5387 live 1 full 1
| best 0 1118647
| query 9 cells 6109 live 1 full 1
| best 0 1380137
| query 10 cells 50027 live 1 full 1
| best 0 1450754
| query 11 cells 25220 live 1 full 1
| best 0 1346072
| query 12 cells 21930 live 1 full 1
| best 0 1573311
| query 13 cells 10352 live 1 full 1
| best 0 1249864
| query 14 cells 31729 live 1 full 1
| best 0 1561275
| query 15 cells 15197 live 1 full 1
| best 0 1596633
| end queries 16
= Done

# line 1 fails after 0 bytes
cut 1 0
> sample 0 1
= WriteFault

# line 2 fails after 3 bytes
cut 2 3
> sample 0 1
| sample start 0 rows 1 d 128 shape 6-6-4 g 8
. cel
= WriteFault

# line 3 fails after 34 bytes
cut 3 34
> sample 0 1
| sample start 0 rows 1 d 128 shape 6-6-4 g 8
| cells 1
| query 0 cells 19394 live 1 full 1
= WriteFault

# line 35 fails after 14 bytes
cut 35 14
> sample 0 1
| sample start 0 rows 1 d 128 shape 6-6-4 g 8
| cells 1
| query 0 cells 19394 live 1 full 1
| best 0 1343053
| query 1 cells 48200 live 1 full 1
| best 0 1319186
| query 2 cells 3072 live 1 full 1
| best 0 1466477
| query 3 cells 51779 live 1 full 1
| best 0 1609945
| query 4 cells 9098 live 1 full 1
| best 0 1467286
| query 5 cells 6799 live 1 full 1
| best 0 1404341
| query 6 cells 46 live 1 full 1
| best 0 1357607
| query 7 cells 29293 live 1 full 1
| best 0 1457920
| query 8 cells 5387 live 1 full 1
| best 0 1118647
| query 9 cells 6109 live 1 full 1
| best 0 1380137
| query 10 cells 50027 live 1 full 1
| best 0 1450754
| query 11 cells 25220 live 1 full 1
| best 0 1346072
| query 12 cells 21930 live 1 full 1
| best 0 1573311
| query 13 cells 10352 live 1 full 1
| best 0 1249864
| query 14 cells 31729 live 1 full 1
| best 0 1561275
| query 15 cells 15197 live 1 full 1
| best 0 1596633
. end queries 16
= WriteFault
";

#[test]
fn samples_print_what_their_queries_find(rt: HostRuntime) -> Result<(), AllocError> {
    play_cases(&rt, "", CASES)
}
