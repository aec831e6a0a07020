//! Sources for the tests.
use crate::pieces::Piece;

// A module of one empty mode.
pub const EMPTY_MODE: &str =
    "program P { sensor int s period 10 init 0; communicator int u period 10 init 7; module M start m { mode m period 20 { } } }";

// A sensor s and a communicator u of period 10; in each 20 ticks `dbl` writes twice of s at 0 to u at 10.
pub const DOUBLING: &str = "program P {
  sensor int s period 10 init 0;
  communicator int u period 10 init 7;
  module M start m {
    task dbl input (int x) output (int y = x * 2) worst 4;
    mode m period 20 { invoke dbl input ((s, 0)) output ((u, 1)); }
  }
}";

// In each 10 ticks `a` goes from 0 to 10 and `b` from 2 to 6; `b` interrupts `a`.
pub const TWO_JOBS: &str = "program P {
  communicator int x period 2 init 1;
  communicator int y period 2 init 0;
  communicator int z period 10 init 0;
  module M start m {
    task a input (int i) output (int o = i + 1) worst 7;
    task b input (int i) output (int o = i * 5) worst 3;
    mode m period 10 {
      invoke a input ((x, 0)) output ((z, 1));
      invoke b input ((x, 1)) output ((y, 3));
    }
  }
}";

// Two root modules: the rounds of F last 10 ticks, those of G 20.
pub const TWO_PERIODS: &str = "program P {
  communicator int u period 10 init 1;
  communicator int w period 10 init 0;
  module F start m {
    task a input (int i) output (int o = i + 1) worst 3;
    mode m period 10 { invoke a input ((u, 0)) output ((u, 1)); }
  }
  module G start m {
    task b input (int i) output (int o = i * 10) worst 9;
    mode m period 20 { invoke b input ((u, 0)) output ((w, 2)); }
  }
}";

// In these F goes to the empty mode e and back, by g.
pub const TWO_PERIODS_AND_MODES: &str = "program P {
  sensor bool g period 10 init false;
  communicator int u period 10 init 1;
  communicator int w period 10 init 0;
  module F start m {
    task a input (int i) output (int o = i + 1) worst 3;
    mode m period 10 { invoke a input ((u, 0)) output ((u, 1)); switch (g, e); }
    mode e period 10 { switch (!g, m); }
  }
  module G start m {
    task b input (int i) output (int o = i * 10) worst 9;
    mode m period 20 { invoke b input ((u, 0)) output ((w, 2)); }
  }
}";

// `q` reads the port that `p` writes.
pub const PORT: &str = "program P {
  communicator int x period 10 init 2;
  communicator int u period 10 init 0;
  module M start m {
    task p input (int i) output (int o = i + 5) worst 3;
    task q input (int i) output (int o = i * 2) worst 4;
    mode m period 10 {
      port int k;
      invoke q input (k) output ((u, 1));
      invoke p input ((x, 0)) output (k);
    }
  }
}";

// The module N refines the mode of M; its mode `on` does what `plan` stands for, and its mode `off` doesn't.
pub const SOMETIMES: &str = "program P {
  communicator int u period 10 init 3;
  communicator int w period 10 init 0;
  sensor bool g period 10 init false;
  module M start m {
    abstract task plan input (int i) output (int o) worst 4;
    task fix input (int i) output (int o = i + 1) worst 2;
    mode m period 10 program Q {
      invoke plan input ((w, 0)) output ((u, 1));
      invoke fix input ((w, 0)) output ((w, 1));
    }
  }
}
program Q {
  module N start off {
    task fast input (int i) output (int o = i * 10) worst 3;
    mode off period 10 { switch (g, on); }
    mode on period 10 {
      invoke fast input ((w, 0)) output ((u, 1)) parent plan;
      switch (!g, off);
    }
  }
}";

// The sensor g ends the mode `m` of M and so the module N, which does the work of `plan` in one of two ways.
pub const REFINED: &str = "program P {
  sensor bool g period 10 init false;
  communicator int u period 10 init 0;
  module M start m {
    abstract task plan input () output (int o) worst 4;
    mode m period 10 program Q { invoke plan input () output ((u, 1)); switch (g, rest); }
    mode rest period 10 { switch (!g, m); }
  }
}
program Q {
  module N start one {
    task f input (int i) output (int o = i + 1) worst 3;
    task h input (int i) output (int o = i + 100) worst 4;
    mode one period 10 {
      invoke f input ((u, 0)) output ((u, 1)) parent plan;
      switch (u >= 1, two);
    }
    mode two period 10 { invoke h input ((u, 0)) output ((u, 1)) parent plan; }
  }
}";

// Two modes with one invocation each; the sensor g switches to the second and back.
pub const TWO_MODES: &str = "program P {
  sensor bool g period 10 init false;
  communicator int u period 10 init 0;
  module M start one {
    task f input (int i) output (int o = i + 1) worst 3;
    task h input (int i) output (int o = i + 100) worst 4;
    mode one period 10 { invoke f input ((u, 0)) output ((u, 1)); switch (g, two); }
    mode two period 10 { invoke h input ((u, 0)) output ((u, 1)); switch (!g, one); }
  }
}";

// Two tanks with a sensor and a valve each; the first has a controller of two modes.
pub const TANKS: &str = "program Tanks {
  sensor int h1 period 100 init 0;
  sensor int h2 period 100 init 0;
  communicator int u1 period 100 init 0;
  communicator int u2 period 100 init 0;
  module T1 start hold {
    abstract task ctrl input (int h) output (int u) worst 120;
    mode hold period 500 program Q1 { invoke ctrl input ((h1, 1)) output ((u1, 4)); }
  }
  module T2 start hold {
    task direct input (int h) output (int u = if(h < 350, 100, 0)) worst 100;
    mode hold period 500 { invoke direct input ((h2, 1)) output ((u2, 4)); }
  }
}
program Q1 {
  module C1 start p {
    task prop input (int h) output (int u = (400 - h) * 2) worst 60;
    task damp input (int h) output (int u = (400 - h) * 3 / 2) worst 110;
    mode p period 500 {
      invoke prop input ((h1, 1)) output ((u1, 4)) parent ctrl;
      switch (u1 > 350, pi);
    }
    mode pi period 500 { invoke damp input ((h1, 1)) output ((u1, 4)) parent ctrl; }
  }
}";

// Two modules of two modes each, of which the sensors g and h take one or the other: four root selections.
pub const TWO_MODULES: &str = "program P {
  sensor bool g period 10 init false;
  sensor bool h period 10 init false;
  communicator int u period 10 init 0;
  communicator int w period 10 init 0;
  module A start one {
    task f input () output (int o = 1) worst 2;
    task k input () output (int o = 2) worst 3;
    mode one period 10 { invoke f input () output ((u, 1)); switch (g, two); }
    mode two period 10 { invoke k input () output ((u, 1)); switch (!g, one); }
  }
  module B start low {
    task p input () output (int o = 3) worst 4;
    task q input () output (int o = 4) worst 5;
    mode low period 10 { invoke p input () output ((w, 1)); switch (h, high); }
    mode high period 10 { invoke q input () output ((w, 1)); switch (!h, low); }
  }
}";

// The module O refines the mode of N, which refines the mode `m` of M.
pub const NESTED: &str = "program P {
  sensor bool g period 10 init false;
  communicator int u period 10 init 0;
  module M start m {
    abstract task a input () output (int o) worst 5;
    mode m period 10 program Q { invoke a input () output ((u, 1)); switch (g, rest); }
    mode rest period 10 { switch (!g, m); }
  }
}
program Q {
  module N start n {
    abstract task b input () output (int o) worst 4;
    mode n period 10 program R { invoke b input () output ((u, 1)) parent a; }
  }
}
program R {
  module O start o {
    task c input (int i) output (int o = i + 1) worst 3;
    mode o period 10 { invoke c input ((u, 0)) output ((u, 1)) parent b; }
  }
}";

// A script for DOUBLING.
pub const READINGS: &str = "at 0\nsense s 3\nat 10\nsense s 5\nend 10\n";

// What `go` and `jobs` write of DOUBLING over READINGS.
pub const DOUBLED: &str = "v 0 s 3
v 0 u 7
m 0 M m
j 0 4 M.m.dbl
d 4 M.m.dbl
v 10 s 5
v 10 u 6
end 10 jobs 1 e 10 s 2
";

// What of it comes before instant 10.
pub const DOUBLED_BEFORE: &str = "v 0 s 3
v 0 u 7
m 0 M m
j 0 4 M.m.dbl
d 4 M.m.dbl
";

// Two loops: a round of 10 ticks beside one of 20, with a task each.
pub const LOOPS: &str = "program P {
  communicator int u period 10 init 1;
  communicator int w period 10 init 0;
  module F start m {
    task a input (int i) output (int o = i + 1) worst 3;
    mode m period 10 { invoke a input ((u, 0)) output ((u, 1)); }
  }
  module G start m {
    task b input (int i) output (int o = i * 10) worst 9;
    mode m period 20 { invoke b input ((u, 0)) output ((w, 2)); }
  }
}
";

// Two root modules of two modes each, tasks of two, of no and of one function, and two switches.
pub const ITEMS: &str = "program P {
  communicator int u period 10 init 0;
  module A start a {
    task two input () output (int x = 1, int y = 2) worst 1;
    abstract task owed input () output (int x) worst 1;
    mode a period 10 { switch (u > 0, b); }
    mode b period 10 { }
  }
  module B start c {
    task one input () output (int x = 3) worst 1;
    mode c period 10 { switch (u > 1, d); }
    mode d period 10 { }
  }
}
";

// Ten modules of two empty modes: 1,024 root selections.
pub const SELECTIONS: &[Piece] = &[
    Piece::Once("program P {"),
    Piece::Numbered(
        10,
        " module M",
        " start m0 { mode m0 period 20 { } mode m1 period 20 { } }",
    ),
    Piece::Once(" }"),
];

// Modules of 41, 5 and 5 empty modes: 1,025 root selections.
pub const MORE_SELECTIONS: &[Piece] = &[
    Piece::Once("program P { module M0 start m0 {"),
    Piece::Numbered(41, " mode m", " period 20 { }"),
    Piece::Once(" } module M1 start m0 {"),
    Piece::Numbered(5, " mode m", " period 20 { }"),
    Piece::Once(" } module M2 start m0 {"),
    Piece::Numbered(5, " mode m", " period 20 { }"),
    Piece::Once(" } }"),
];
