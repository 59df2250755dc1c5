//! How the turns of a replay are reported.

/// In which form the turns of a replay are reported.
#[derive(Clone, Copy)]
pub enum TraceForm {
    /// A line for each turn that is reported.
    Lines,
    /// A chart: a column for each site, a row for each turn that is reported.
    Chart,
}

/// How the turns of a replay are reported: each that moves, unless it is said otherwise.
#[derive(Clone, Copy)]
pub struct Tracing {
    /// In which form.
    pub form: TraceForm,
    /// Whether of the turns that move those alone are reported that put or take a message.
    pub messages: bool,
    /// Whether the turns are reported too that found no room or no message.
    pub blocked: bool,
    /// The first instant and the last one, counted from 0, at which the slowest site stands that goes on
    /// where a turn is reported; where one isn't given, none is cut away there.
    pub from: Option<u32>,
    pub to: Option<u32>,
}
