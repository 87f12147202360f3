//! The style sheet of a page: light and dark, for print, and for narrow screens.

/// The rules, between `<style>` and `</style>`.
pub(crate) const STYLE: &[u8] = br##"
/* Colours. Paper has the light ones. */
:root {
  --bg: #f3f4f6; --card: #fff; --ink: #1a1f26; --soft: #59636f; --edge: #dfe3e8; --grid: #e7eaee; --zero: #8a939e;
  --over: rgba(255,255,255,.62); --ok: #0a6640; --okbg: #e4f3eb; --bad: #9b2c1f; --badbg: #fbe9e6; --link: #1f5fa8;
  --band: #cfd9e6; --c0: #d65565; --c1: #4c37a6; --c2: #bdcb76; --c3: #005917; --c4: #98b1ff; --c5: #6a2446;
  --c6: #46c3aa; --c7: #91770d; --c8: #b953a8; --co: #b9bec5; --cn: #7d8792; --cb: #44688f; --k1: #3b4a5e;
  --k2: #a3b3c6; --k3: #c4553f;
}
@media screen { :root { color-scheme: light dark } }
@media screen and (prefers-color-scheme: dark) {
  :root {
    --bg: #101317; --card: #191d23; --ink: #e9ecf0; --soft: #a3adb9; --edge: #2c323b; --grid: #2a3039; --zero: #77818d;
    --over: rgba(16,19,23,.5); --ok: #7fd6a6; --okbg: #12301f; --bad: #f2a196; --badbg: #3a1a16; --link: #8fbcf0;
    --band: #34445a; --c0: #ee9384; --c1: #8072ff; --c2: #ffe695; --c3: #46813e; --c4: #abceff; --c5: #d34281;
    --c6: #71e7d4; --c7: #b0c437; --c8: #b165bd; --co: #6b747f; --cn: #8d97a3; --cb: #7fa6cf; --k1: #7d8ea6;
    --k2: #c3d0df; --k3: #e58a76;
  }
}

/* The page */
* { box-sizing: border-box }
body {
  margin: 0; background: var(--bg); color: var(--ink);
  font: 16px/1.5 system-ui, -apple-system, "Segoe UI", Roboto, "Liberation Sans", Arial, sans-serif;
}
header, main, footer { max-width: 1220px; margin: 0 auto; padding: 0 20px }
header { padding-top: 36px; padding-bottom: 20px }
h1, h2, h3, h4, p { margin: 0 }
h1, h2, h3, h4 { overflow-wrap: anywhere }
h1 { font-size: 34px; line-height: 1.15; letter-spacing: -.01em }
h2 { font-size: 25px; margin: 44px 0 14px }
h3 { font-size: 20px; margin: 34px 0 12px }
h4 { font-size: 15px; line-height: 1.3 }
a, summary { color: var(--link) }
:focus-visible { outline: 2px solid var(--link); outline-offset: 2px; border-radius: 3px }
.vh { position: absolute; width: 1px; height: 1px; overflow: hidden; clip-path: inset(50%); white-space: nowrap }
.skip { position: absolute; left: -999px }
.skip:focus { left: 8px; top: 8px; background: var(--card); padding: 6px 10px }
.over { color: var(--soft); font-size: 14px; margin-bottom: 4px }
.file { color: var(--soft); font-size: 14px; margin-top: 6px; overflow-wrap: anywhere }
.made { margin-top: 4px }
.made summary { overflow-wrap: anywhere }
.made pre { margin: 6px 0 0; max-height: 40vh }

/* The headline */
.top, figure { background: var(--card); border: 1px solid var(--edge); border-radius: 10px }
.top { display: grid; grid-template-columns: auto 1fr; gap: 6px 40px; padding: 24px 26px; margin-top: 20px }
.top.bad { display: block }
.lab { color: var(--soft); font-size: 14px }
.num {
  font-size: 46px; line-height: 1.15; font-weight: 650; letter-spacing: -.02em; font-variant-numeric: tabular-nums;
}
.mark {
  display: inline-block; font-weight: 600; font-size: 15px; color: var(--ok); background: var(--okbg);
  border-radius: 6px; padding: 2px 10px; margin-bottom: 8px;
}
.bad .mark { color: var(--bad); background: var(--badbg); font-size: 20px; padding: 4px 12px }
.say { max-width: 68ch }
.bad .say { margin: 10px 0 }
dl {
  grid-column: 1/-1; display: flex; flex-wrap: wrap; gap: 8px 32px; margin: 14px 0 0; padding-top: 14px;
  border-top: 1px solid var(--edge);
}
dt { color: var(--soft); font-size: 13px; overflow-wrap: anywhere }
dd { margin: 0; font-size: 15px; font-variant-numeric: tabular-nums; overflow-wrap: anywhere }

/* Choices and buttons */
.bar {
  position: sticky; top: 0; z-index: 2; display: flex; flex-wrap: wrap; gap: 6px 16px; align-items: end;
  max-width: 1220px; margin: 0 auto 16px; padding: 8px 20px; background: var(--bg);
  border-bottom: 1px solid var(--edge); font-size: 13px;
}
.bar:empty { display: none }
.bar label > span:first-child { display: block; color: var(--soft) }
select, button {
  font: inherit; color: inherit; background: var(--card); border: 1px solid var(--edge); border-radius: 6px;
  padding: 3px 8px; max-width: 210px;
}
button { cursor: pointer }
button[aria-pressed=true] { border-color: var(--zero) }
.tools { float: right; display: flex; gap: 4px; margin: 7px -4px 0 8px }
.tools button { font-size: 12px; padding: 0 6px; color: var(--link) }

/* Figures */
.grid { display: grid; gap: 16px; align-items: start }
.grid { grid-template-columns: repeat(auto-fill, minmax(min(340px, 100%), 1fr)) }
figure { margin: 0; padding: 16px 18px 12px; min-width: 0; break-inside: avoid }
figure { content-visibility: auto; contain-intrinsic-size: auto 360px }
figure.wide, figure:has(details[open]) { grid-column: 1/-1 }
.sub { color: var(--soft); font-size: 13px; overflow-wrap: anywhere }
.note, .none { color: var(--soft); font-size: 13px; margin-top: 8px; overflow-wrap: anywhere }
.none { grid-column: 1/-1; margin: 0 }
.holder { touch-action: pan-y }
details { margin-top: 8px }
summary { cursor: pointer; font-size: 13px; width: fit-content }
.legend {
  display: flex; flex-wrap: wrap; gap: 1px 14px; margin: 8px 0 0; padding: 0; list-style: none; font-size: 13px;
}
.legend li { display: flex; gap: 6px; min-width: 0; overflow-wrap: anywhere }
.legend button {
  display: flex; gap: 6px; border: 0; padding: 0; background: none; text-align: left; max-width: none;
  overflow-wrap: anywhere;
}
.legend button[aria-pressed=false] { opacity: .4; text-decoration: line-through }
.key { width: 11px; height: 11px; flex: none; margin-top: 5px }

/* Pictures */
.chart { display: block; width: 100%; max-width: 520px; height: auto; margin-top: 10px }
.chart.long { max-width: none }
.chart text { font-size: 11.2px; fill: var(--soft); font-variant-numeric: tabular-nums }
.chart .heading { font-size: 14px; font-weight: 600; fill: var(--ink) }
.e { text-anchor: end }
.m { text-anchor: middle }
.g { stroke: var(--grid); stroke-width: 1 }
.z { stroke: var(--zero); stroke-width: 1 }
.c0 { fill: var(--c0); stroke: var(--c0) }
.c1 { fill: var(--c1); stroke: var(--c1) }
.c2 { fill: var(--c2); stroke: var(--c2) }
.c3 { fill: var(--c3); stroke: var(--c3) }
.c4 { fill: var(--c4); stroke: var(--c4) }
.c5 { fill: var(--c5); stroke: var(--c5) }
.c6 { fill: var(--c6); stroke: var(--c6) }
.c7 { fill: var(--c7); stroke: var(--c7) }
.c8 { fill: var(--c8); stroke: var(--c8) }
.co { fill: var(--co); stroke: var(--co) }
.cn { fill: var(--cn); stroke: var(--cn) }
.cb { fill: var(--cb); stroke: var(--cb) }
.k1 { fill: var(--k1); stroke: var(--k1) }
.k2 { fill: var(--k2); stroke: var(--k2) }
.k3 { fill: var(--k3); stroke: var(--k3) }
rect, circle { stroke-width: 0 }
.p1 { fill: url(#q1) }
.p2 { fill: url(#q2) }
pattern > * { fill: var(--over) }
.l { fill: none; stroke-width: 2.2; stroke-linejoin: round }
.l1 { stroke-dasharray: 6 3 }
.l2 { stroke-dasharray: 2 3 }
.u { fill: none; stroke: var(--card); stroke-width: 3.6 }
.dem, .net, .lim { fill: none; stroke: var(--ink); stroke-width: 2.4 }
.lim { stroke: var(--bad); stroke-dasharray: 7 3.4 }
.band { fill: var(--band) }
.dot { fill: var(--cb); stroke: var(--card); stroke-width: .8 }
.light { fill: var(--grid) }
.ground { fill: var(--card) }
.defs { position: absolute }

/* What is told of a column */
.tip {
  position: fixed; z-index: 3; pointer-events: none; background: var(--card); border: 1px solid var(--zero);
  border-radius: 8px; padding: 6px 10px; font-size: 13px; box-shadow: 0 2px 10px rgba(0,0,0,.18); max-width: 320px;
}
.tip table { margin: 0 }
.tip th, .tip td { border: 0; padding: 0 0 0 8px; line-height: 1.35 }
.tip td:first-child { padding: 0 }
.tip th { text-align: left; white-space: normal; overflow-wrap: anywhere }

/* Tables */
.scroll { overflow-x: auto }
.scroll tbody th { position: sticky; left: 0; background: var(--card) }
.paper { display: none }
table { border-collapse: collapse; font-size: 13px; font-variant-numeric: tabular-nums; margin-top: 8px }
th, td {
  text-align: right; padding: 3px 0 3px 14px; font-weight: 400; white-space: nowrap;
  border-top: 1px solid var(--grid);
}
thead th, thead td { border-top: 0; color: var(--soft) }
tbody th { text-align: left; padding-left: 0; white-space: normal; overflow-wrap: anywhere; min-width: 90px }
th button { border: 0; padding: 0; background: none; color: inherit; white-space: normal }
[aria-sort=ascending] button::after { content: " \2191" }
[aria-sort=descending] button::after { content: " \2193" }
.sum th, .sum td { font-weight: 600 }
.glance { font-size: 14px; width: 100% }
.glance .w { text-align: left }
.glance tbody th { overflow-wrap: break-word }
thead tr > :first-child { padding-left: 0; text-align: left }
.way, .pc { color: var(--soft) }
.bars { width: 100%; font-size: 13px; margin-top: 10px }
.bars th { width: 1%; min-width: 84px; max-width: 140px }
.bars td { width: 1% }
.bars .b { width: auto; padding-left: 10px }
.bars svg { display: block; width: 100%; height: 11px }

/* What the page is drawn from, and the foot */
.data { max-width: 1220px; margin: 30px auto 0; padding: 0 20px; font-size: 14px }
.data h2 { font-size: 17px; margin: 0 0 8px }
.data h3 { font-size: 15px; margin: 14px 0 6px }
.said, .tables, .compared, .changes, .made pre {
  font: 12px/1.45 ui-monospace, monospace; background: var(--card); border: 1px solid var(--edge);
  border-radius: 8px; padding: 10px; overflow: auto; max-height: 70vh;
}
.compared:empty, .drawn .nojs { display: none }
footer { padding-top: 10px; padding-bottom: 50px; color: var(--soft); font-size: 14px }
footer h2 { font-size: 17px; color: var(--ink); margin: 30px 0 8px }
footer ul { margin: 0; padding-left: 20px; max-width: 90ch }
footer li { margin-bottom: 5px; overflow-wrap: anywhere }
footer b { color: var(--ink) }

@media (max-width: 640px) {
  h1 { font-size: 27px }
  header, main, footer, .data { padding-left: 12px; padding-right: 12px }
  .bar { position: static; padding: 8px 12px }
  .top { grid-template-columns: 1fr; padding: 18px }
  .num { font-size: 38px }
  figure { padding: 14px 12px 10px }
  .glance .w { white-space: normal }
  .glance th, .glance td { padding-left: 9px; font-size: 13px }
  .glance tbody th { min-width: 0; padding-left: 0 }
}

/* Paper: every chart has its picture to the left, its legend to the right, and its numbers, unfolded, below. */
@media print {
  @page { size: A4; margin: 14mm }
  :root { --bg: #fff }
  * { print-color-adjust: exact; -webkit-print-color-adjust: exact }
  body { font-size: 10pt }
  header, main, footer { max-width: none; padding-left: 1px; padding-right: 1px }
  header { padding-top: 0 }
  h2, h3 { break-after: avoid }
  footer { break-inside: avoid }
  .bar, .tools, .tip, .skip, .drawn .data { display: none }
  .top, figure { border-radius: 0 }
  .num { font-size: 30pt }
  .grid { display: block }
  figure {
    display: grid; grid-template-columns: 85mm 1fr; column-gap: 8mm; align-items: start; margin-bottom: 5mm;
    content-visibility: visible;
  }
  figure > * { grid-column: 1/-1 }
  figure > .place { grid-column: 1; width: 85mm }
  figure.wide > .place, figure > .place:has(table) { grid-column: 1/-1; width: auto }
  figure > .legend, figure > .legend + .note { grid-column: 2; flex-direction: column }
  .legend button[aria-pressed=false], figure summary, .data summary, figure details .scroll { display: none }
  .paper { display: block }
  details::details-content { content-visibility: visible; display: block }
  .scroll { overflow: visible }
  .said, .tables, .compared, .changes, .made pre { max-height: none; overflow: visible; white-space: pre-wrap }
  table { font-size: 7.5pt }
  th, td { padding-left: 8px }
  .glance, .bars { font-size: 9pt }
}
"##;
