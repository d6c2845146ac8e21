//! The style sheet of the page. `page/embed.py` writes this file.

/// The text of `page/page.css`.
pub const STYLE: &str = r##"/* Red is a refusal or a fault, amber a warning, green a change or data
   exchange. Each colour stands beside a word or a sign. Masters have hues
   of their own, which are none of these. */
:root {
  color-scheme: light dark;
  --back: #f6f7f9; --card: #ffffff; --ink: #1b2330; --soft: #566070; --edge: #d9dee5; --row: #f1f4f8;
  --field: #7c8899;
  --good: #14733b; --good-back: #dcf3e4; --mild: #8a5300; --mild-back: #fdeccb; --idle: #4a5666; --idle-back: #e6eaef;
  --bad: #b3141f; --bad-back: #fde4e4; --link: #0b5cad; --fresh: #ffe27a;
  --mono: ui-monospace, "SF Mono", "Cascadia Mono", "DejaVu Sans Mono", "Liberation Mono", Consolas, monospace;
  --chip: 26%; --chip-back: 92%;
}
@media (prefers-color-scheme: dark) {
  :root {
    --back: #11151b; --card: #1a2029; --ink: #e4e9f0; --soft: #9fabba; --edge: #2d3642; --row: #212a35;
    --field: #6f7d8e;
    --good: #63d391; --good-back: #14352a; --mild: #f0b95a; --mild-back: #3b2d10; --idle: #b3bfcc; --idle-back: #2a333f;
    --bad: #ff8f8b; --bad-back: #45191c; --link: #7ab8ff; --fresh: #6b5600;
    --chip: 80%; --chip-back: 20%;
  }
}
.m0 { --hue: 212; } .m1 { --hue: 282; } .m2 { --hue: 186; } .m3 { --hue: 320; }
.m4 { --hue: 42; } .m5 { --hue: 244; } .m6 { --hue: 172; } .m7 { --hue: 298; }
.m8 { --hue: 56; } .m9 { --hue: 228; } .m10 { --hue: 198; } .m11 { --hue: 334; }
.m12 { --hue: 28; } .m13 { --hue: 262; } .m14 { --hue: 180; } .m15 { --hue: 308; }

* { box-sizing: border-box; }
body {
  margin: 0; background: var(--back); color: var(--ink);
  font: 14px/1.45 system-ui, "Segoe UI", Roboto, "Liberation Sans", "DejaVu Sans", sans-serif;
}
[hidden] { display: none; }
.unseen { position: absolute; width: 1px; height: 1px; margin: -1px; overflow: hidden; clip-path: inset(50%); }
.soft { color: var(--soft); font-weight: 400; }
.none { margin: 0; padding: 6px 0; color: var(--soft); }
.bad { color: var(--bad); }
code, .octets { font-family: var(--mono); font-size: 12.5px; overflow-wrap: anywhere; }
.octets { word-spacing: -.15em; }
mark { color: var(--ink); background: var(--fresh); border-radius: 3px; text-decoration: underline; }
:focus-visible { outline: 2px solid var(--link); outline-offset: 1px; }

button, select, input {
  padding: 3px 10px; border: 1px solid var(--field); border-radius: 6px;
  font: inherit; color: inherit; background: var(--card);
}
button { cursor: pointer; }
button:hover { border-color: var(--link); }
button.text { padding: 0; border: 0; border-radius: 3px; background: none; text-align: left; }
button.text:hover { text-decoration: underline; }

header {
  position: sticky; top: 0; z-index: 3; display: flex; flex-wrap: wrap; gap: 6px 14px; align-items: center;
  padding: 8px 16px; background: var(--card); border-bottom: 1px solid var(--edge);
}
h1 { margin: 0; font-size: 16px; letter-spacing: .01em; }
h1 span { font-weight: 400; color: var(--soft); }
header p { margin: 0; color: var(--soft); }
#source { flex: 1 1 260px; min-width: 0; overflow-wrap: anywhere; }
#source b { color: var(--ink); font-weight: 600; }
#live { display: flex; align-items: center; gap: 6px; min-width: 9.5em; font-variant-numeric: tabular-nums; }
#live::before, i { content: ""; flex: none; width: 9px; height: 9px; border-radius: 50%; background: var(--good); }
#live.quiet::before, i.none { padding: 0; background: var(--idle); opacity: .6; }
#live.paused::before, i.halted { background: var(--mild); border-radius: 0; }
#live.lost::before, i.wrong { background: var(--bad); border-radius: 0; }
nav { display: flex; flex-wrap: wrap; gap: 4px; }
#lines { display: contents; }
nav button { display: flex; gap: 7px; align-items: center; white-space: nowrap; }
nav button[aria-pressed="true"] { background: var(--ink); color: var(--card); border-color: var(--ink); }
nav [aria-pressed="true"] i { outline: 2px solid var(--card); }
nav [aria-pressed="true"] i.none { background: var(--idle); opacity: 1; }
nav small { min-width: 2.8em; font-variant-numeric: tabular-nums; }

#banner p { margin: 12px 16px 0; padding: 9px 14px; border-radius: 8px; font-weight: 500; overflow-wrap: anywhere; }
#banner .bad { background: var(--bad-back); border-left: 4px solid var(--bad); }
#banner .mild { background: var(--mild-back); color: var(--mild); border-left: 4px solid var(--mild); }

main { display: grid; grid-template-columns: repeat(12, minmax(0, 1fr)); gap: 12px; padding: 12px 16px; }
section {
  grid-column: span 12; min-width: 0; padding: 10px 14px 12px;
  background: var(--card); border: 1px solid var(--edge); border-radius: 10px;
}
#left { display: contents; }
#all-part, main.all > :not(#all-part) { display: none; }
main.all > #all-part { display: block; }
#who { order: 1; }
#why { order: 2; }
#slaves-part { order: 3; }
#masters-part { order: 4; }
#stream-part { order: 5; }
@media (min-width: 1080px) {
  #left { display: flex; order: 1; grid-column: span 5; flex-direction: column; gap: 12px; min-width: 0; }
  #masters-part { flex: 1; }
  #why { grid-column: span 7; }
  .wide #left { display: contents; }
  .wide #masters-part { order: 2; grid-column: span 5; }
}
h2 {
  margin: 0 0 8px; font-size: 12px; font-weight: 650; color: var(--soft);
  letter-spacing: .05em; text-transform: uppercase;
}
h3 { margin: 14px 0 4px; font-size: 13px; font-weight: 650; }

.scroll { overflow: auto; max-height: 420px; }
table { width: 100%; border-collapse: collapse; font-variant-numeric: tabular-nums; }
th, td { padding: 4px 8px; border-bottom: 1px solid var(--edge); text-align: left; vertical-align: top; }
th { font-weight: 600; white-space: nowrap; }
thead th {
  position: sticky; top: 0; z-index: 1; padding: 3px 8px; background: var(--card); color: var(--soft); font-size: 12px;
}
tbody tr:last-child > * { border-bottom: 0; }
.number { text-align: right; }
.centred { text-align: center; }
td.number, #refusals td, #faults td { white-space: nowrap; }
#faults td.wide { white-space: normal; overflow-wrap: anywhere; min-width: 16em; }

.state, .chip, .flag {
  display: inline-block; padding: 1px 7px; border-radius: 5px; font-size: 12px; white-space: nowrap;
}
.state { font-weight: 600; }
.Data_Exch { color: var(--good); background: var(--good-back); }
.Wait_Cfg { color: var(--mild); background: var(--mild-back); }
.Wait_Prm { color: var(--idle); background: var(--idle-back); }
.chip { font-weight: 650; background: var(--idle-back); }
.chip[class*=" m"] { color: hsl(var(--hue) 70% var(--chip)); background: hsl(var(--hue) 65% var(--chip-back)); }
.chip.nobody { padding-left: 0; color: var(--soft); background: none; font-weight: 400; }
.flag { padding: 0 6px; margin-bottom: 2px; border: 1px solid var(--edge); }
.flag.bad { border-color: var(--bad); }
.flag.mild { color: var(--mild); border-color: var(--mild); }

#matrix { width: auto; min-width: 100%; }
#matrix th, #matrix td { padding: 3px 6px; vertical-align: middle; }
#matrix .centred { padding: 2px; }
#matrix tr > :nth-child(-n+2) { position: sticky; left: 0; min-width: 44px; background: var(--card); }
#matrix tr > :nth-child(2) { left: 44px; }
#matrix thead tr > :nth-child(-n+2) { z-index: 2; }
#matrix td button {
  width: 100%; min-width: 50px; min-height: 25px; padding: 3px; border: 1px solid transparent; background: none;
  border-radius: 6px; font-size: 12px; line-height: 1.2; color: var(--soft);
}
#matrix td button:hover { border-color: var(--link); }
#matrix td button.holds {
  color: hsl(var(--hue) 70% var(--chip)); background: hsl(var(--hue) 65% var(--chip-back)); font-weight: 700;
}
#matrix td button.may { color: var(--good); border: 1px dashed var(--good); font-weight: 600; }
#matrix td button.unlisted { color: var(--bad); }
#matrix td button[aria-pressed="true"] { outline: 2px solid var(--link); outline-offset: -1px; }
#fold { margin: 8px 0 0; color: var(--soft); }
#fold:empty { display: none; }
#fold button { padding: 1px 8px; color: var(--ink); }
#answer { margin: 10px 0 6px; font-size: 16px; line-height: 1.4; min-height: 2.8em; }
#all-part .scroll { max-height: none; }
#all-lines tr > :first-child { position: sticky; left: 0; white-space: nowrap; background: var(--card); }
#all-lines i { display: inline-block; margin-right: 7px; }
#all-lines td { white-space: nowrap; }
#legend {
  display: flex; flex-wrap: wrap; gap: 0 12px; margin: 0; padding: 0;
  list-style: none; font-size: 12px; color: var(--soft);
}
#legend b { color: var(--ink); font-weight: 600; }

#reason { min-height: 10em; border-left: 4px solid var(--edge); padding: 2px 0 4px 12px; }
#reason.bad { border-color: var(--bad); color: inherit; }
#reason.mild { border-color: var(--mild); }
#reason h3 { margin: 0; font-size: 16px; }
#reason em { font-style: normal; color: var(--bad); }
#reason.mild em { color: var(--mild); }
#reason button { float: right; margin: 0 0 4px 8px; font-size: 12px; }
#sentence { margin: 2px 0 6px; font-size: 19px; line-height: 1.35; overflow-wrap: anywhere; }
dl { display: grid; grid-template-columns: max-content minmax(0, 1fr); gap: 1px 12px; margin: 0; }
dt { color: var(--soft); }
dd { margin: 0; overflow-wrap: anywhere; }
#why .scroll { max-height: 250px; }
tr[data-group] { cursor: pointer; }
tr[data-group]:hover > *, tr.chosen > * { background: var(--row); }
tr.chosen > :first-child { box-shadow: inset 3px 0 var(--link); }

.watchdog { white-space: nowrap; }
meter {
  appearance: none; width: 64px; height: 8px; margin: -2px 3px 0 0; border-radius: 4px; vertical-align: middle;
  background: var(--idle-back); overflow: hidden;
}
meter::-webkit-meter-inner-element { display: block; height: 8px; }
meter::-webkit-meter-bar { position: static; height: 8px; transform: none; border: 0; background: none; }
meter::-webkit-meter-optimum-value { height: 8px; background: var(--good); }
meter::-webkit-meter-suboptimum-value { height: 8px; background: var(--bad); }
meter::-moz-meter-bar { background: var(--good); }
meter:-moz-meter-sub-optimum::-moz-meter-bar { background: var(--bad); }
#slaves td:nth-child(4) { min-width: 11em; }
#slaves td:nth-child(6), #slaves td:nth-child(7) { min-width: 7em; max-width: 24em; }
#slaves td:nth-child(8) { min-width: 9em; max-width: 24em; }
#slaves td:nth-child(9) { min-width: 12em; }
#slaves div.soft { font-size: 12px; }
.ways { display: flex; flex-wrap: wrap; gap: 0 10px; color: var(--soft); font-size: 12.5px; }

#filters { display: flex; flex-wrap: wrap; gap: 6px 12px; margin-bottom: 6px; }
#filters label { display: flex; align-items: center; gap: 5px; max-width: 100%; color: var(--soft); font-size: 12px; }
#filters select, #filters input { min-width: 0; font-size: 13px; color: var(--ink); }
#filters input::placeholder { color: var(--soft); opacity: 1; }
#shown {
  display: flex; flex-wrap: wrap; gap: 4px 10px; align-items: center; min-height: 2em; margin: 0 0 6px;
  color: var(--soft); font-size: 12px;
}
#shown button { padding: 1px 8px; color: var(--ink); }
#stream { height: 460px; overflow: auto; border: 1px solid var(--edge); border-radius: 8px; }
#stream details { border-bottom: 1px solid var(--edge); }
#stream summary {
  display: grid; grid-template-columns: minmax(4.4em, max-content) 12.5em 10em minmax(0, 1fr); gap: 0 10px;
  align-items: baseline; padding: 3px 10px; cursor: pointer; list-style: none;
}
#stream summary::-webkit-details-marker { display: none; }
#stream summary:hover, #stream [open] summary { background: var(--row); }
#stream summary:focus-visible { outline-offset: -2px; }
.place { text-align: right; color: var(--soft); font-variant-numeric: tabular-nums; }
.service { overflow: hidden; color: var(--soft); text-overflow: ellipsis; white-space: nowrap; }
.result { overflow-wrap: anywhere; }
#stream .refused summary { box-shadow: inset 3px 0 var(--bad); }
#stream .refused .result { color: var(--bad); }
#stream .fault summary { box-shadow: inset 3px 0 var(--mild); }
#stream .fault .result { color: var(--mild); }
#stream .changed summary { box-shadow: inset 3px 0 var(--good); }
#stream dl { padding: 4px 10px 10px 16px; background: var(--row); }
#stream .note {
  margin: 0; padding: 3px 10px; border-bottom: 1px solid var(--edge); background: var(--row); font-weight: 600;
}
#stream .none { padding: 8px 10px; }

footer { padding: 0 16px 16px; color: var(--soft); font-size: 12px; overflow-wrap: anywhere; }
@media (max-width: 640px) {
  header { position: static; }
  main, header { padding-left: 10px; padding-right: 10px; }
  #banner p { margin-left: 10px; margin-right: 10px; }
  #stream summary { grid-template-columns: 3.6em minmax(0, 1fr); }
  #stream .service, #stream .result { grid-column: 2; }
  th, td { padding-left: 4px; padding-right: 4px; }
  thead th { white-space: normal; vertical-align: bottom; }
  #matrix th, #matrix td { padding: 3px 4px; }
  #matrix .centred { padding: 2px 1px; }
  #matrix td button { min-width: 46px; padding: 3px 1px; }
  #who { padding-left: 10px; padding-right: 10px; }
  #faults td.wide { min-width: 9em; }
  #slaves td:nth-child(9) { min-width: 16em; }
}
"##;
