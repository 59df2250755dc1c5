//! The design, its placement, a table of its inputs, and a schedule.

use lusdist_shell::EvalRequest;

/// Site `field` counts the pulses of a flow meter and takes a sample at each tenth; site `office` adds the
/// samples up.
pub(crate) const DESIGN: &str =
    "node main(pulse: bool; tenth: bool) returns (count: int; total: int when tenth);
var sample: int when tenth;
let
  count = (0 fby count) + (if pulse then 1 else 0);
  sample = count when tenth;
  total = sample -> pre total + sample;
tel
";

pub(crate) const PLACEMENT: &str = "sites = [\"field\", \"office\"]
default = \"field\"
[place]
total = \"office\"
";

pub(crate) const TABLE: &str = "pulse,tenth
true,false
true,true
false,false
true,true
";

/// Turns of both sites, `field` first; the replay is finished behind them.
pub(crate) const SCHEDULE: &str = "0100\n";

/// What is evaluated: the outputs, as a table. The names are those of the texts above.
pub(crate) const OUTPUTS: EvalRequest<'static> = EvalRequest {
    main: "main",
    explain: false,
    short: false,
    program: "design",
    table: "table",
    all: false,
    deep: false,
    chronogram: false,
    from: None,
    to: None,
    vcd: None,
    aligned: false,
    always: &[],
};
