//! The fixed texts of the HTML page. Its content security policy allows only this script, by its SHA-256.

/// The text before the title.
pub static HEAD: &str = r#"<!doctype html>
<html lang=en>
<head>
<meta charset=utf-8>
<meta name=viewport content="width=device-width, initial-scale=1">
<meta name=color-scheme content="light dark">
<meta name=format-detection content="telephone=no">
<meta name=referrer content=no-referrer>
<meta http-equiv=Content-Security-Policy content="default-src 'none'; style-src 'unsafe-inline'; script-src 'sha256-Qn5kCQFbxuoiasNAf/mmD099YbhsARqf2kmG+E/YyrI='; base-uri 'none'; form-action 'none'">
<title>"#;

/// The text from the title to the script.
pub static STYLE: &str = r#"</title>
<style>
:root {
  color-scheme: light dark;
  --bg: #fff; --fg: #1c2024; --mute: #5b646d; --line: #dfe3e7; --soft: #f4f6f8; --edge: #868f98; --link: #0b57a4; --bad: #b3261e; --good: #1b7a3d;
  --mono: .8125rem/1.55 ui-monospace, Menlo, Consolas, "DejaVu Sans Mono", monospace;
}
@media (prefers-color-scheme: dark) {
  :root { --bg: #15181b; --fg: #e3e6e9; --mute: #9aa3ac; --line: #2f353b; --soft: #1f2428; --edge: #6b747d; --link: #86b8f2; --bad: #ff8d80; --good: #63c784; }
}
* { box-sizing: border-box; }
body { margin: 0 auto; max-width: 84rem; padding: 0 clamp(1rem, 4vw, 3rem) 3rem; background: var(--bg); color: var(--fg); font: 1rem/1.5 system-ui, sans-serif; }
:focus-visible { outline: 2px solid var(--link); outline-offset: 2px; }
[hidden], .js .plain { display: none !important; }
.skip { position: absolute; left: -99rem; padding: .5rem 1rem; background: var(--bg); }
.skip:focus { left: 0; }
#site { color: var(--mute); margin: 2rem 0 0; overflow-wrap: anywhere; unicode-bidi: isolate; }
h1 { font-size: 2.25rem; line-height: 1.15; margin: .1em 0 .3em; }
.bad b { color: var(--bad); }
.good b { color: var(--good); }
header ul { display: flex; flex-wrap: wrap; gap: 0 1.75rem; list-style: none; margin: 0; padding: 0; color: var(--mute); }
b, .n { font-variant-numeric: tabular-nums; }
#tools { display: flex; flex-wrap: wrap; gap: .5rem .75rem; align-items: center; padding: .75rem 0; margin-top: 1rem; border-bottom: 1px solid var(--line); background: var(--bg); position: sticky; top: 0; }
#tools input[type=search] { flex: 1 1 16rem; min-width: 0; }
input, select, button { font: inherit; color: inherit; padding: .35rem .6rem; background: var(--soft); border: 1px solid var(--edge); border-radius: 6px; }
button { cursor: pointer; }
#said { color: var(--mute); }
section { margin-top: 2rem; }
h2 { font-size: 1.25rem; margin: 0 0 .5rem; }
pre, table, .rows { font: var(--mono); margin: 0; white-space: pre-wrap; overflow-wrap: anywhere; tab-size: 4; }
pre { color: var(--mute); }
pre b { color: var(--fg); unicode-bidi: isolate; }
table { width: 100%; border-collapse: collapse; table-layout: fixed; }
th, td { text-align: start; vertical-align: top; padding: .45rem .5rem .45rem 0; border-top: 1px solid var(--line); font-weight: 400; unicode-bidi: isolate; }
thead th { font: .8125rem/1.4 system-ui, sans-serif; color: var(--mute); border: 0; }
.n { width: 5rem; text-align: end; padding-inline-end: 1rem; }
tbody th { font-weight: 600; }
td ul { list-style: none; margin: 0; padding: 0; }
li, .aside { unicode-bidi: isolate; }
.bar { height: .35rem; min-width: 1px; margin-top: .2rem; background: var(--edge); border-radius: 2px; }
.aside { color: var(--mute); font-weight: 400; }
a, summary { color: var(--link); }
summary { cursor: pointer; }
@media (max-width: 40rem) { .n { width: 3.5rem; padding-inline-end: .75rem; } }
@media print { #tools, .skip, #more { display: none !important; } }
</style>
"#;

/// The script, and the text up to the site's name.
pub static SCRIPT: &str = r#"<script>
// Reads the plain lists once and shows them as tables, by target, by its folder or by file. Text of the site only enters the page as text nodes.
(() => {
'use strict';
const root = document.documentElement;
root.className = 'js'; // hides the plain list of broken links; it is shown again if anything below fails
addEventListener('DOMContentLoaded', () => {
  try { start(); } catch (error) { root.className = ''; throw error; }
});
function start() {
const STEP = 200, FEW = 5; // rows that are added at a time; locations in a cell before the rest is folded
const $ = (id) => document.getElementById(id);
if (!$('end')) $('cut').hidden = false;
function make(tag, attributes, ...children) {
  const node = document.createElement(tag);
  Object.assign(node, attributes);
  node.append(...children);
  return node;
}
// A bar that shows how many links lead to a host, relative to the host with the most.
function bar(links, most) {
  const node = make('div', { className: 'bar', ariaHidden: 'true' });
  node.style.width = 100 * links / most + '%';
  return node;
}
const hosts = new Map(), other = $('external');
if (other) {
  for (const line of other.querySelector('pre').textContent.split('\n')) {
    const [url, links] = line.split('\t'), host = url.split('/')[2];
    if (links) hosts.set(host, (hosts.get(host) || 0) + Number(links));
  }
  const all = [...hosts].sort((a, b) => b[1] - a[1]);
  const table = make('table', {}, make('thead', {}, make('tr', {}, make('th', { scope: 'col', className: 'n' }, 'Links'), make('th', { scope: 'col' }, 'Host'))));
  table.setAttribute('aria-labelledby', 'h-external');
  table.append(make('tbody', {}, ...all.slice(0, STEP).map(([host, links]) =>
    make('tr', {}, make('td', { className: 'n' }, links), make('th', { scope: 'row' }, host, bar(links, all[0][1]))))));
  other.querySelector('pre').before(table);
}
const section = $('broken');
if (!section) return;
const targets = [], files = new Map();
const sources = section.querySelectorAll('pre a'); // one for each location, or none
let place = 0;
for (const line of section.querySelector('pre').textContent.split('\n')) {
  if (line[0] === '\t') {
    const [location, ...asides] = line.slice(1).split('\t'), file = location.replace(/:\d+:\d+$/, '');
    const target = targets[targets.length - 1], source = sources[place++];
    const href = source && source.href, aside = asides.map((one) => ' ' + one).join('');
    target.list.push({ text: location + aside, href });
    target.links++;
    if (!files.has(file)) files.set(file, { name: file, note: '', links: 0, list: [] });
    files.get(file).list.push({ text: target.name + ' at ' + location.slice(file.length + 1) + ': ' + target.note + aside, href });
    files.get(file).links++;
  } else if (line) {
    const [name, note] = line.split('\t');
    targets.push({ name, note, links: 0, list: [] });
  }
}
// Targets that are alike are one row: anchors by their page, other targets by the text up to the last slash.
const folders = new Map();
for (const { name, note, links, list } of targets) {
  const folder = (/^[^#]*(?=#)/.exec(name) || /^.*\//.exec(name) || ['./'])[0];
  if (!folders.has(folder)) folders.set(folder, { name: folder, targets: 0, links: 0, list: [] });
  const row = folders.get(folder);
  row.targets++;
  row.note = row.targets + (row.targets === 1 ? ' target' : ' targets');
  row.links += links;
  if (!links) row.list.push({ text: name + ': ' + note });
  for (const { text, href } of list) row.list.push({ text: name + ' at ' + text + ': ' + note, href });
}
const views = { target: targets, folder: [...folders.values()], file: [...files.values()] };
const most = (rows) => rows.slice().sort((a, b) => b.links - a.links);
const lows = new Map(); // the lower-case texts that a search looks in, by view
function low(by) {
  if (!lows.has(by)) lows.set(by, views[by].map((row) => [row.name, row.note, ...row.list.map((one) => one.text)].join('\n').toLowerCase()));
  return lows.get(by);
}
let rows = [], drawn = 0;
const body = make('tbody'), headA = make('th', { scope: 'col' }), headB = make('th', { scope: 'col' });
const table = make('table', {}, make('thead', {}, make('tr', {}, make('th', { scope: 'col', className: 'n' }, 'Links'), headA, headB)), body);
table.setAttribute('aria-labelledby', 'h-broken');
const more = make('button', { type: 'button', id: 'more' });
section.append(table, more);
function text(value) {
  return /^https?:\/\//i.test(value) ? make('a', { href: value, rel: 'noreferrer' }, value) : value;
}
function items(list) { return list.map((one) => make('li', {}, one.href ? make('a', { href: one.href, rel: 'noreferrer' }, one.text) : one.text)); }
function cell(list) {
  if (list.length <= FEW) return make('td', {}, make('ul', {}, ...items(list)));
  const rest = make('details', {}, make('summary', {}, list.length - FEW + ' more'));
  rest.addEventListener('toggle', () => { if (!rest.querySelector('ul')) rest.append(make('ul', {}, ...items(list.slice(FEW)))); });
  return make('td', {}, make('ul', {}, ...items(list.slice(0, FEW))), rest);
}
function draw() {
  const end = Math.min(rows.length, drawn + STEP), some = document.createDocumentFragment();
  for (; drawn < end; drawn++) {
    const row = rows[drawn], head = make('th', { scope: 'row' }, text(row.name));
    if (row.note) head.append(make('div', { className: 'aside' }, row.note));
    some.append(make('tr', {}, make('td', { className: 'n' }, row.links), head, cell(row.list)));
  }
  body.append(some);
  more.hidden = drawn === rows.length;
  more.textContent = 'Show more (' + drawn + ' of ' + rows.length + ')';
}
function search() {
  const by = $('by').value, all = views[by], searched = low(by);
  const words = $('q').value.toLowerCase().split(/\s+/).filter(Boolean);
  rows = words.length ? all.filter((_, k) => words.every((word) => searched[k].includes(word))) : all;
  if ($('order').value === 'most') rows = most(rows);
  headA.textContent = { target: 'Target', folder: 'Folder of the targets', file: 'File' }[by];
  headB.textContent = by === 'target' ? 'Locations' : 'Broken links';
  body.textContent = '';
  drawn = 0;
  draw();
  $('said').textContent = rows.length + ' of ' + all.length + ' ' + by + (all.length === 1 ? '' : 's');
}
more.addEventListener('click', () => {
  const next = drawn;
  draw();
  body.rows[next].tabIndex = -1;
  body.rows[next].focus();
});
$('tools').addEventListener('input', search);
$('tools').addEventListener('submit', (event) => event.preventDefault());
$('tools').hidden = false;
search();
}
})();
</script>
</head>
<body>
<a class=skip href=#main>Skip to the results</a>
<header>
<p id=site>"#;

/// The text after the totals, with the form for search and order.
pub static TOOLS: &str = r#"</ul>
<p id=cut hidden>This report is incomplete: the file was cut off.</p>
</header>
<main id=main>
<form id=tools role=search hidden>
<input type=search id=q aria-label="Search broken links" placeholder="Search (all words must match)">
<select id=by aria-label="Group by"><option value=target>by target</option><option value=folder>by target's folder</option><option value=file>by file</option></select>
<select id=order aria-label="Order"><option value=given>in report order</option><option value=most>most links first</option></select>
<span id=said role=status></span>
</form>
"#;

/// The end of the page.
pub static TAIL: &str = r#"</main>
<footer id=end></footer>
</body>
</html>
"#;
