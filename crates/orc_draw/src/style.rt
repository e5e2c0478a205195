//! The colours and letters of an SVG picture, as the rules of its style sheet. `svg.rt` and `legend.rt` use the classes.
//!
//! `bg` is the background, `instant` the band of a time, `rule` a line of the frame, `axis` times and the summary, `leg` the legend. A bar is `ok`,
//! `halt`, `cut` or `nev` by how its call ended (`class_of` in `svg.rt`), and the words behind it have one more `t`; `num` is the call's number,
//! `dim` the label of a cancelled call, `x` a cross, `stopmark` the mark of a halt. `group` is the box of a pruning, `span` its line, `ospan` that of
//! an otherwise; their ends are `bind`, `lost` and `right`, with words in `bindt`, `haltt`, `rightt` and `cutt`. `win` is the line from an answer to
//! the pruning that it won. `pub` is the dot of a publication, `pubv` its value, `publine` its line. Words at the ends of bars are `end`, too. `lab`
//! is a label at the left; that of a pruning or an otherwise is `scope`, too. Nothing has the class `sub`.

/// The rules of light colours.
pub(crate) const LIGHT: &str =
    ".end{stroke:#ffffff;stroke-width:3px;paint-order:stroke}.bg{fill:#ffffff}text{fill:#1f2328}\
.dim,.num,.axis,.leg,.nevt,.cutt{fill:#6e7781}.instant{fill:#f1f3f5}.rule{stroke:#c9d1d9}\
.group{fill:#0969da;fill-opacity:.07;stroke:#0969da;stroke-opacity:.35}.ok{fill:#2f6fdb}\
.halt{fill:#d29922}.haltt,.rightt{fill:#8a5a00}.cut{fill:#d0d7de;stroke:#8c959f;stroke-dasharray:3 2}\
.x{stroke:#8c959f;stroke-width:2}.stopmark{fill:#8a5a00}\
.nev{fill:none;stroke:#8c959f;stroke-dasharray:2 3}.bind,.bindt{fill:#1a7f37}\
.win{stroke:#1a7f37;stroke-width:1.6;fill:none}.pub,.pubv{fill:#8250df}\
.publine{stroke:#8250df;stroke-opacity:.35}.span{stroke:#0969da;stroke-width:2}\
.ospan{stroke:#d29922;stroke-width:2;stroke-dasharray:5 3}.right{fill:#d29922}\
.lost{fill:#ffffff;stroke:#8a5a00;stroke-width:2}";

/// The rules of dark colours, for the same classes.
pub(crate) const DARK: &str =
    ".end{stroke:#0d1117;stroke-width:3px;paint-order:stroke}.bg{fill:#0d1117}text{fill:#e6edf3}\
.dim,.num,.axis,.leg,.nevt,.cutt{fill:#8b949e}.instant{fill:#171c24}.rule{stroke:#30363d}\
.group{fill:#58a6ff;fill-opacity:.07;stroke:#58a6ff;stroke-opacity:.35}.ok{fill:#4c8df6}\
.halt{fill:#bb8009}.haltt,.rightt{fill:#e3b341}.cut{fill:#2d333b;stroke:#6e7681;stroke-dasharray:3 2}\
.x{stroke:#6e7681;stroke-width:2}.stopmark{fill:#e3b341}\
.nev{fill:none;stroke:#6e7681;stroke-dasharray:2 3}.bind,.bindt{fill:#3fb950}\
.win{stroke:#3fb950;stroke-width:1.6;fill:none}.pub,.pubv{fill:#bc8cff}\
.publine{stroke:#bc8cff;stroke-opacity:.35}.span{stroke:#58a6ff;stroke-width:2}\
.ospan{stroke:#bb8009;stroke-width:2;stroke-dasharray:5 3}.right{fill:#bb8009}\
.lost{fill:#0d1117;stroke:#e3b341;stroke-width:2}";

/// The rules of letters. The size of labels, in pixels, is written before this, and that of a call's number behind it: both depend on how many rows
/// there are.
pub(crate) const FAMILY: &str =
    "px ui-monospace,Menlo,Consolas,\"DejaVu Sans Mono\",monospace}.title{font-size:14px;font-weight:bold}\
.leg,.axis,.sub{font-size:11px}.scope,.bindt,.pubv{font-weight:bold}.pubv{font-size:12px}.num{font-size:";
