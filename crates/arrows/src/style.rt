//! The colours and letters of pictures, which can be told apart by colour-blind readers, on a light
//! and on a dark ground.

ghost use Rattle.std.specs.Prelude.{◌≡◌};
ghost use Rattle.arrows.specs.Arrows as spec;

/// How many hues there are.
const HUES: usize = 6;

/// The hue of an event, 0 to 5.
pub fn hue(event: usize) -> usize
    ensures { result ≡ spec.hue event }
{
    event.wrapping_rem(HUES)
}

/// The style sheet of a picture, and the tips of arrows: one without a hue, and one of each.
pub const SHEET: &[u8] = b"<style>
svg{background:#fff;font-family:sans-serif;font-size:13px}
text{fill:#1a1a1a}
.ground{fill:#fff}
.heading{font-size:17px;font-weight:bold}
.code{font-family:monospace;white-space:pre}
.faint{fill:#555}
.right{text-anchor:end}
.middle,.number,.count{text-anchor:middle}
.count{font-size:12px}
.number{font-size:12px;font-weight:bold}
.box{fill:#e6eaee;stroke:#8a949e}
.made{fill:#fff;stroke:#8a949e;stroke-dasharray:4 3}
.beyond{fill:#fff;stroke:#a3abb3;stroke-dasharray:2 3}
.marked{fill:#f6c9a8;stroke:#d55e00;stroke-width:2}
text.marked{fill:#a34700;stroke:none;font-weight:bold}
text.made{fill:#555;stroke:none;font-style:italic}
.arrow path,.order path{fill:none;stroke-width:1.8}
.order path{stroke:#8a949e;stroke-dasharray:5 4;marker-end:url(#tip)}
#tip{fill:#8a949e}
text.hue0{fill:#7a4a2a}
text.hue1{fill:#0072b2}
text.hue2{fill:#c25400}
text.hue3{fill:#008560}
text.hue4{fill:#b5548c}
text.hue5{fill:#3b3b98}
.vector path{fill:none;stroke-width:1.8}
.own path{stroke-dasharray:5 3}
.vector.hue0 path{marker-end:url(#end0)}
.vector.hue1 path{marker-end:url(#end1)}
.vector.hue2 path{marker-end:url(#end2)}
.vector.hue3 path{marker-end:url(#end3)}
.vector.hue4 path{marker-end:url(#end4)}
.vector.hue5 path{marker-end:url(#end5)}
.point{fill:#1a1a1a;rx:6}
.absent{fill:#fff;stroke:#a3abb3;stroke-dasharray:2 3;rx:6}
.hue0 path{stroke:#7a4a2a;marker-end:url(#tip0)}
.hue1 path{stroke:#0072b2;marker-end:url(#tip1)}
.hue2 path{stroke:#c25400;marker-end:url(#tip2)}
.hue3 path{stroke:#008560;marker-end:url(#tip3)}
.hue4 path{stroke:#b5548c;marker-end:url(#tip4)}
.hue5 path{stroke:#3b3b98;marker-end:url(#tip5)}
#tip0,#end0,.advance.hue0 circle{fill:#7a4a2a}
#tip1,#end1,.advance.hue1 circle{fill:#0072b2}
#tip2,#end2,.advance.hue2 circle{fill:#c25400}
#tip3,#end3,.advance.hue3 circle{fill:#008560}
#tip4,#end4,.advance.hue4 circle{fill:#b5548c}
#tip5,#end5,.advance.hue5 circle{fill:#3b3b98}
.advance text{fill:#fff}
.await circle{fill:#fff;stroke-width:2}
.await.hue0 circle{stroke:#7a4a2a}
.await.hue1 circle{stroke:#0072b2}
.await.hue2 circle{stroke:#c25400}
.await.hue3 circle{stroke:#008560}
.await.hue4 circle{stroke:#b5548c}
.await.hue5 circle{stroke:#3b3b98}
.early{fill:#b00020;font-weight:bold}
.main{fill:#c9ced3}
.several{fill:#8a949e}
.colour0{fill:#e69f00}
.colour1{fill:#56b4e9}
.colour2{fill:#4cc9a0}
.colour3{fill:#f0e442}
.colour4{fill:#b86bff}
.colour5{fill:#f08a4b}
.colour6{fill:#e0a3c8}
.label{text-anchor:middle;fill:#111;font-size:12px}
.waiting{text-anchor:middle;font-size:12px}
.curve{fill:#cfe3f3;stroke:#0072b2}
.advanced{fill:#0072b2}
.parked{fill:#d55e00}
.waits{fill:#fff;stroke:#d55e00;stroke-dasharray:4 3}
.wake path{fill:none;stroke-width:1.6}
.axis{fill:none;stroke:#8a949e}
.retired{fill:#1a1a1a;rx:0}
.ended{fill:#b00020}
@media (prefers-color-scheme:dark){
.early{fill:#ff8a80}
.main{fill:#8d959d}
.several{fill:#5d666f}
.label{fill:#111}
.curve{fill:#24445c;stroke:#56b4e9}
.advanced{fill:#56b4e9}
.parked{fill:#ff9a4d}
.waits{fill:#14181c;stroke:#ff9a4d}
.point{fill:#eee}
.absent{fill:#14181c;stroke:#77828d}
.retired{fill:#eee}
.ended{fill:#ff4f86}
svg{background:#14181c}
text{fill:#eee}
.ground{fill:#14181c}
.faint,text.made{fill:#b5bcc3}
.box{fill:#2a323a;stroke:#7d8893}
.made{fill:#14181c;stroke:#7d8893}
.beyond{fill:#14181c;stroke:#77828d}
.marked{fill:#6b3a17;stroke:#ff9a4d}
text.marked{fill:#ffb27a}
.hue0 path{stroke:#d9a07a}
.hue1 path{stroke:#56b4e9}
.hue2 path{stroke:#ff9a4d}
.hue3 path{stroke:#3ecfa3}
.hue4 path{stroke:#e09cc4}
.hue5 path{stroke:#f0e442}
text.hue0{fill:#d9a07a}
text.hue1{fill:#56b4e9}
text.hue2{fill:#ff9a4d}
text.hue3{fill:#3ecfa3}
text.hue4{fill:#e09cc4}
text.hue5{fill:#f0e442}
#tip0,#end0,.advance.hue0 circle{fill:#d9a07a}
#tip1,#end1,.advance.hue1 circle{fill:#56b4e9}
#tip2,#end2,.advance.hue2 circle{fill:#ff9a4d}
#tip3,#end3,.advance.hue3 circle{fill:#3ecfa3}
#tip4,#end4,.advance.hue4 circle{fill:#e09cc4}
#tip5,#end5,.advance.hue5 circle{fill:#f0e442}
.advance text{fill:#14181c}
.await circle{fill:#14181c}
.await.hue0 circle{stroke:#d9a07a}
.await.hue1 circle{stroke:#56b4e9}
.await.hue2 circle{stroke:#ff9a4d}
.await.hue3 circle{stroke:#3ecfa3}
.await.hue4 circle{stroke:#e09cc4}
.await.hue5 circle{stroke:#f0e442}
}
</style>
<defs>
<marker id=\"tip\" viewBox=\"0 0 10 10\" refX=\"2\" refY=\"5\" markerWidth=\"5\" markerHeight=\"5\" orient=\"auto\"><path d=\"M0 0L10 5L0 10z\"/></marker>
<marker id=\"tip0\" viewBox=\"0 0 10 10\" refX=\"2\" refY=\"5\" markerWidth=\"5\" markerHeight=\"5\" orient=\"auto\"><path d=\"M0 0L10 5L0 10z\"/></marker>
<marker id=\"tip1\" viewBox=\"0 0 10 10\" refX=\"2\" refY=\"5\" markerWidth=\"5\" markerHeight=\"5\" orient=\"auto\"><path d=\"M0 0L10 5L0 10z\"/></marker>
<marker id=\"tip2\" viewBox=\"0 0 10 10\" refX=\"2\" refY=\"5\" markerWidth=\"5\" markerHeight=\"5\" orient=\"auto\"><path d=\"M0 0L10 5L0 10z\"/></marker>
<marker id=\"tip3\" viewBox=\"0 0 10 10\" refX=\"2\" refY=\"5\" markerWidth=\"5\" markerHeight=\"5\" orient=\"auto\"><path d=\"M0 0L10 5L0 10z\"/></marker>
<marker id=\"tip4\" viewBox=\"0 0 10 10\" refX=\"2\" refY=\"5\" markerWidth=\"5\" markerHeight=\"5\" orient=\"auto\"><path d=\"M0 0L10 5L0 10z\"/></marker>
<marker id=\"tip5\" viewBox=\"0 0 10 10\" refX=\"2\" refY=\"5\" markerWidth=\"5\" markerHeight=\"5\" orient=\"auto\"><path d=\"M0 0L10 5L0 10z\"/></marker>
<marker id=\"end0\" viewBox=\"0 0 10 10\" refX=\"17\" refY=\"5\" markerWidth=\"5\" markerHeight=\"5\" orient=\"auto\"><path d=\"M0 0L10 5L0 10z\"/></marker>
<marker id=\"end1\" viewBox=\"0 0 10 10\" refX=\"17\" refY=\"5\" markerWidth=\"5\" markerHeight=\"5\" orient=\"auto\"><path d=\"M0 0L10 5L0 10z\"/></marker>
<marker id=\"end2\" viewBox=\"0 0 10 10\" refX=\"17\" refY=\"5\" markerWidth=\"5\" markerHeight=\"5\" orient=\"auto\"><path d=\"M0 0L10 5L0 10z\"/></marker>
<marker id=\"end3\" viewBox=\"0 0 10 10\" refX=\"17\" refY=\"5\" markerWidth=\"5\" markerHeight=\"5\" orient=\"auto\"><path d=\"M0 0L10 5L0 10z\"/></marker>
<marker id=\"end4\" viewBox=\"0 0 10 10\" refX=\"17\" refY=\"5\" markerWidth=\"5\" markerHeight=\"5\" orient=\"auto\"><path d=\"M0 0L10 5L0 10z\"/></marker>
<marker id=\"end5\" viewBox=\"0 0 10 10\" refX=\"17\" refY=\"5\" markerWidth=\"5\" markerHeight=\"5\" orient=\"auto\"><path d=\"M0 0L10 5L0 10z\"/></marker>
</defs>
";
