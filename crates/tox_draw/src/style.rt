//! The style of a picture.

/// The lines of the style.
pub(crate) const STYLE: &str = "\
<style>
.toxi-draw{font:12px system-ui,-apple-system,\"Segoe UI\",Roboto,Helvetica,Arial,sans-serif}
.toxi-draw .paper{fill:#fff}
.toxi-draw text{fill:#59636e}
.toxi-draw .chain{fill:#1f2328;font:13px ui-monospace,SFMono-Regular,Menlo,Consolas,\"DejaVu Sans Mono\",monospace}
.toxi-draw .halo{stroke:#fff;stroke-width:4px;stroke-linejoin:round;paint-order:stroke}
.toxi-draw .end{text-anchor:end}
.toxi-draw .mid{text-anchor:middle}
.toxi-draw path{fill:none;stroke-width:1px;shape-rendering:crispEdges}
.toxi-draw path.grid{stroke:#eaecef}
.toxi-draw path.axis{stroke:#8c959f}
.toxi-draw path.held{fill:#6e7781;fill-opacity:.13;fill-rule:evenodd}
.toxi-draw path.late{fill:#d55e00;fill-opacity:.35;fill-rule:evenodd}
.toxi-draw path.arrived{stroke:#424a53}
.toxi-draw path.left{stroke:#0072b2;stroke-width:3px}
.toxi-draw path.due{stroke:#0072b2;stroke-width:2px}
.toxi-draw path.written{stroke:#d55e00;stroke-width:2px}
.toxi-draw path.mark{stroke:#1f2328;stroke-width:2px;shape-rendering:auto}
.toxi-draw circle{fill:#1f2328}
.toxi-draw circle.arrived{fill:#fff;stroke:#424a53}
.toxi-draw text.left,.toxi-draw text.due{fill:#0072b2}
.toxi-draw text.written{fill:#b34f00}
.toxi-draw text.mark{fill:#1f2328}
@media(prefers-color-scheme:dark){
.toxi-draw .paper{fill:#0d1117}
.toxi-draw text{fill:#9198a1}
.toxi-draw .chain{fill:#f0f6fc}
.toxi-draw .halo{stroke:#0d1117}
.toxi-draw path.grid{stroke:#21262d}
.toxi-draw path.axis{stroke:#656c76}
.toxi-draw path.held{fill:#9198a1;fill-opacity:.18}
.toxi-draw path.late{fill:#e69f00;fill-opacity:.45}
.toxi-draw path.arrived{stroke:#b1bac4}
.toxi-draw path.left,.toxi-draw path.due{stroke:#56b4e9}
.toxi-draw path.written{stroke:#e69f00}
.toxi-draw path.mark{stroke:#f0f6fc}
.toxi-draw circle{fill:#f0f6fc}
.toxi-draw circle.arrived{fill:#0d1117;stroke:#b1bac4}
.toxi-draw text.left,.toxi-draw text.due{fill:#56b4e9}
.toxi-draw text.written{fill:#e69f00}
.toxi-draw text.mark{fill:#f0f6fc}
}
</style>
";
