// The lines of runs.
// The job takes less than its worst case.
pub const DOUBLED_SOON: &str = "v 0 s 3
v 0 u 7
m 0 M m
j 0 1 M.m.dbl
d 1 M.m.dbl
v 10 s 5
v 10 u 6
end 10 jobs 1 e 10 s 2
";

// What is told at 3 holds from 10 on of the sensor, and from 20 on of the job.
pub const DOUBLED_TWICE: &str = "v 0 s 0
v 0 u 7
m 0 M m
j 0 4 M.m.dbl
d 4 M.m.dbl
v 10 s 4
v 10 u 0
j 20 21 M.m.dbl
d 21 M.m.dbl
v 30 u 8
end 30 jobs 2 e 20 s 4
";

// The second job interrupts the first.
pub const INTERRUPTED: &str = "v 0 x 1
v 0 y 0
v 0 z 0
m 0 M m
j 0 2 M.m.a
j 2 5 M.m.b
d 5 M.m.b
v 6 y 5
j 5 10 M.m.a
d 10 M.m.a
v 10 z 2
end 10 jobs 2 e 26 s 4
";

// The first job is done early, and the second waits for its release.
pub const RELEASED: &str = "v 0 x 1
v 0 y 0
v 0 z 0
m 0 M m
j 0 1 M.m.a
d 1 M.m.a
j 2 5 M.m.b
d 5 M.m.b
v 6 y 5
v 10 z 2
end 10 jobs 2 e 26 s 4
";

// The reader of the port follows its writer.
pub const PASSED_ON: &str = "v 0 x 2
v 0 u 0
m 0 M m
j 0 1 M.m.p
d 1 M.m.p
j 1 5 M.m.q
d 5 M.m.q
v 10 u 14
end 10 jobs 2 e 20 s 3
";

// In the first round nothing stands for the abstract task, and u keeps its value.
pub const SWITCHED_ON: &str = "v 0 u 3
v 0 w 0
v 0 g 0
m 0 M m
m 0 N off
j 0 2 M.m.fix
d 2 M.m.fix
v 10 w 1
v 10 g 1
m 10 N on
j 10 13 N.on.fast
d 13 N.on.fast
j 13 15 M.m.fix
d 15 M.m.fix
v 20 u 10
v 20 w 2
end 20 jobs 3 e 54 s 6
";

// The job that stands for the abstract task takes less, and the next job begins at once.
pub const SWITCHED_ON_SOON: &str = "v 0 u 3
v 0 w 0
v 0 g 0
m 0 M m
m 0 N off
j 0 2 M.m.fix
d 2 M.m.fix
v 10 w 1
v 10 g 1
m 10 N on
j 10 11 N.on.fast
d 11 N.on.fast
j 11 13 M.m.fix
d 13 M.m.fix
v 20 u 10
v 20 w 2
end 20 jobs 3 e 54 s 6
";

// At 10 the refinement ends in place of its own switch; on return it starts anew.
pub const LEFT: &str = "v 0 g 0
v 0 u 0
m 0 M m
m 0 N one
j 0 3 N.one.f
d 3 N.one.f
v 10 g 1
v 10 u 1
m 10 M rest
m 10 N -
v 20 g 0
m 20 M m
m 20 N one
j 20 23 N.one.f
d 23 N.one.f
v 30 u 2
m 30 N two
end 30 jobs 2 e 50 s 5
";

// On return the refinement is in its start mode, and not in the mode in which it was left.
pub const LEFT_LATER: &str = "v 0 g 0
v 0 u 0
m 0 M m
m 0 N one
j 0 3 N.one.f
d 3 N.one.f
v 10 u 1
m 10 N two
j 10 14 N.two.h
d 14 N.two.h
v 20 g 1
v 20 u 101
m 20 M rest
m 20 N -
v 30 g 0
m 30 M m
m 30 N one
end 30 jobs 2 e 50 s 5
";

// A switch to the mode that is running keeps the refinement.
pub const KEPT: &str = "v 0 g 0
v 0 u 0
m 0 M m
m 0 N one
j 0 3 N.one.f
d 3 N.one.f
v 10 g 1
v 10 u 1
m 10 N two
j 10 14 N.two.h
d 14 N.two.h
v 20 u 101
end 20 jobs 2 e 41 s 4
";

pub const CONTROLLED: &str = "v 0 h1 250
v 0 h2 300
v 0 u1 0
v 0 u2 0
m 0 T1 hold
m 0 C1 p
m 0 T2 hold
j 100 160 C1.p.prop
d 160 C1.p.prop
j 160 260 T2.hold.direct
d 260 T2.hold.direct
v 400 u1 300
v 400 u2 100
end 500 jobs 2 e 39 s 3
";

pub const SWITCHED: &str = "v 0 g 0
v 0 u 0
m 0 M one
j 0 3 M.one.f
d 3 M.one.f
v 10 g 1
v 10 u 1
m 10 M two
j 10 14 M.two.h
d 14 M.two.h
v 20 u 101
end 20 jobs 2 e 30 s 4
";

// Each round goes by the schedule of its own root selection: 0, 1, 3 and 2.
pub const SELECTED: &str = "v 0 g 0
v 0 h 0
v 0 u 0
v 0 w 0
m 0 A one
m 0 B low
j 0 2 A.one.f
d 2 A.one.f
j 2 6 B.low.p
d 6 B.low.p
v 10 h 1
v 10 u 1
v 10 w 3
m 10 B high
j 10 12 A.one.f
d 12 A.one.f
j 12 17 B.high.q
d 17 B.high.q
v 20 g 1
v 20 w 4
m 20 A two
j 20 23 A.two.k
d 23 A.two.k
j 23 28 B.high.q
d 28 B.high.q
v 30 h 0
v 30 u 2
m 30 B low
j 30 33 A.two.k
d 33 A.two.k
j 33 37 B.low.p
d 37 B.low.p
v 40 w 3
end 40 jobs 8 e 94 s 12
";

// Both modules below the mode that is left end, and both start anew on return.
pub const LEFT_BOTH: &str = "v 0 g 0
v 0 u 0
m 0 M m
m 0 N n
m 0 O o
j 0 3 O.o.c
d 3 O.o.c
v 10 g 1
v 10 u 1
m 10 M rest
m 10 N -
m 10 O -
v 20 g 0
m 20 M m
m 20 N n
m 20 O o
j 20 23 O.o.c
d 23 O.o.c
v 30 u 2
end 30 jobs 2 e 64 s 5
";

// Each instruction of both machines in its place.
pub const INSTRUCTIONS: &str = "e 0 0 enter M.m
e 0 1 future 10 write 5
e 0 2 future 0 read 7
e 0 3 future 20 switch 10
e 0 4 return
e 0 7 call read M.m.dbl 0
e 0 8 release M.m.dbl
e 0 9 return
v 0 s 3
v 0 u 7
m 0 M m
j 0 4 M.m.dbl
d 4 M.m.dbl
s 4 0:0 dispatch 0 until 4
s 4 0:1 end
e 10 5 call write M.m.dbl 0
e 10 6 return
v 10 s 5
v 10 u 6
end 10 jobs 1 e 10 s 2
";

// The jump counts as an instruction.
pub const JUMPED: &str = "v 0 s 3
v 0 u 7
m 0 M m
j 0 4 M.m.dbl
d 4 M.m.dbl
v 10 s 5
v 10 u 6
end 10 jobs 1 e 11 s 2
";

pub const IDLED: &str = "v 0 s 3
v 0 u 7
m 0 M m
j 3 7 M.m.dbl
d 7 M.m.dbl
v 10 s 5
v 10 u 6
end 10 jobs 1 e 10 s 3
";

pub const DIVIDED: &str = "v 0 x 1
v 0 y 0
v 0 z 0
m 0 M m
j 0 1 M.m.a
j 1 2 M.m.a
j 2 5 M.m.b
d 5 M.m.b
v 6 y 5
j 5 10 M.m.a
d 10 M.m.a
v 10 z 2
end 10 jobs 2 e 26 s 5
";

pub const DIVIDED_VALUES: &str = "v 0 x 1
v 0 y 0
v 0 z 0
m 0 M m
v 6 y 5
v 10 z 2
end 10 jobs 2 e 26 s 5
";
