//! The fourth part of the page's script: elements, and the pictures of charts.

/// A chart as an SVG picture, and what is told of the column under the pointer.
pub(crate) const SCRIPT_DRAWING: &[u8] = br##"
// ---- Elements

const builderOf = namespace => (tag, attributes, ...children) => {
  const element = document.createElementNS(namespace, tag);
  for (const [name, value] of Object.entries(attributes || {}))
    if (value !== null && value !== undefined) element.setAttribute(name, value);
  element.append(...present(children.flat(9)));
  return element;
};

const html = builderOf('http://www.w3.org/1999/xhtml'), svg = builderOf('http://www.w3.org/2000/svg');
const byId = id => document.getElementById(id);
const tell = text => { byId('live').textContent = text; };
const present = list => list.filter(item => item);

function on(element, event, act) {
  element.addEventListener(event, act);
  return element;
}

const button = (content, attributes, act) =>
  on(html('button', { type: 'button', ...attributes }, content), 'click', act);

// Tables: a heading is its content, or [content, class]; the name of a row is the first of its cells.
const paragraph = (kind, ...content) => html('p', { class: kind }, content);
const amount = content => html('td', null, content);
const words = content => html('td', { class: 'w' }, content);
const rowOf = (name, cells, kind) => html('tr', { class: kind }, html('th', { scope: 'row' }, name), cells);
const headOf = ([content, kind]) => html('th', { scope: 'col', class: kind }, content);
const tableOf = (kind, headings, rows) => html('table', { class: kind }, html('thead', null,
  html('tr', null, headings.map(heading => headOf([heading].flat())))), html('tbody', null, rows));

function save(name, text, type) {
  const file = name.replace(/[^A-Za-z0-9._-]+/g, '_'), url = URL.createObjectURL(new Blob([text], { type }));
  html('a', { download: file, href: url }).click();
  setTimeout(() => URL.revokeObjectURL(url), 1000);
}

// ---- Pictures: whole numbers end here, since places on a picture needn't be exact

// In units of a picture: its parts, its width, and that of a letter, about.
const TOP = 9, HEIGHT = 192, FOOT = 24, NARROW = 380, WIDE = 1160, LETTER = 7.7;
const number = v => (v === null ? NaN : Number(v) / 1e6);
const isKnown = v => !Number.isNaN(v);
const tenth = v => Math.round(v * 10) / 10;

const rectangle = (kind, x, y, width, height, more) =>
  svg('rect', { class: kind, x: tenth(x), y: tenth(y), width: tenth(width), height: tenth(height), ...more });
const circle = (kind, cx, cy, r) => svg('circle', { class: kind, cx, cy, r });
const stroke = (kind, d) => svg('path', { class: kind, d });
const label = (kind, x, y, text) => svg('text', { class: kind, x: tenth(x), y: tenth(y) }, text);

// A rectangle in a series' look: its colour, and stripes or dots over it.
const painted = ([colour, level], ...place) =>
  [rectangle(colour, ...place), level ? rectangle('p' + level, ...place) : null];
const keyPicture = content => svg('svg', { class: 'key', viewBox: '0 0 11 11', 'aria-hidden': 'true' }, content);
const swatch = look => keyPicture(painted(look, 0, 0, 11, 11));
const strokeSwatch = kind => keyPicture(stroke(kind, 'M0 5.5H11'));

// The least step of 1, 2, 5, 10, .. by which at most six reach from `low` to `high`, which stand below 0 and above.
function scaleOf(high, low) {
  for (let power = -6; ; power++)
    for (const digit of [1, 2, 5]) {
      const step = digit * 10 ** power, up = Math.ceil(high / step - 1e-9), down = Math.ceil(-low / step - 1e-9);
      if (up + down <= 6) return { step, up: Math.max(up, down ? 0 : 1), down, places: Math.max(0, -power) };
    }
}

function tickText(v, places) {
  const size = Math.abs(v), text = size >= 1e9 ? size.toExponential().replace('e+', 'e') : size.toFixed(places);
  return (v < 0 && Number(text) ? MINUS : '') + text.replace(/^\d{5,}/, spaced);
}

// The series of a picture. Left out are those that the reader took out. One series stands for all whose every value is
// below a ten-thousandth of the chart's total, and for the smallest beyond the most that are wanted.
function shownSeries(chart, hidden) {
  const left = chart.series.filter(one => !hidden.has(one.name));
  if (chart.style === 'dots') return left;
  const sizes = new Map(left.map(one => [one, total(one.values.map(v => abs(v || 0n)))]));
  const all = total([...sizes.values()]), wanted = Number(state.most);
  const large = left.filter(one => one.values.some(v => v !== null && abs(v) * 10000n >= all));
  const kept = new Set(!wanted || large.length <= wanted + 1 ? large
    : [...large].sort((a, b) => order(sizes.get(b), sizes.get(a))).slice(0, wanted));
  const rest = left.filter(one => !kept.has(one)), shown = left.filter(one => kept.has(one));
  if (!rest.length || chart.style === 'line') return shown;
  const values = chart.labels.map((_, i) => total(rest.map(one => one.values[i])));
  return [...shown, { name: `other (${rest.length})`, look: ['co', 0], values }];
}

// The values of a column; shares are of what is above 0.
function columnOf(shown, i, style) {
  const values = shown.map(one => number(one.values[i]));
  if (style !== 'share') return values;
  const all = values.reduce((sum, v) => sum + (v > 0 ? v : 0), 0);
  return values.map(v => (all > 0 ? (100 * v) / all : 0));
}

const stackEnds = values => [1, -1].map(way => way * values.reduce((sum, v) => sum + Math.max(way * v || 0, 0), 0));
const drawnValues = line => line.drawn || line.values;

// Where everything stands: `y` of a value, `x` of a column's left side, `edge` of its bar's; `fat` is a bar's width.
function layoutOf(chart, shown, isWide) {
  const style = chart.style || state.style, isStack = style === 'stack' || style === 'share';
  const columns = chart.labels.map((_, i) => columnOf(shown, i, style)), lines = style === 'share' ? [] : chart.lines;
  const marks = lines.flatMap(line => drawnValues(line).map(number)).filter(isKnown);
  const ends = columns.flatMap(values => (isStack ? stackEnds(values) : values.filter(isKnown)));
  const high = Math.max(0, ...ends, ...marks), low = Math.min(0, ...ends, ...marks);
  const { step, up, down, places } = scaleOf(high === low ? 1 : high, low);
  const ticks = [...Array(up + down + 1).keys()].map(i => (i - down) * step)
    .map(v => [v, tickText(v, places) + (style === 'share' ? '\u00a0%' : '')]);
  const full = isWide ? WIDE : NARROW, left = 8 + LETTER * Math.max(...ticks.map(([, text]) => text.length));
  const slot = (full - left - 8) / chart.labels.length, unit = HEIGHT / ((up + down) * step);
  const fat = Math.min(slot * 0.75, 48), x = i => left + slot * i;
  // A series none of whose values reaches half a pixel can't be seen, so neither it nor its name is drawn.
  const isSeen = shown.map((_, k) => style === 'dots' || columns.some(values => Math.abs(values[k]) * unit >= 0.5));
  return { style, columns, lines, ticks, full, left, slot, fat, isSeen, x, edge: i => x(i) + (slot - fat) / 2,
    middle: i => tenth(x(i) + slot / 2), y: v => TOP + (up * step - v) * unit };
}

// The bars of each column: on each other from 0 up and from 0 down, or side by side.
const bars = isStack => (layout, shown) => layout.columns.map((values, i) => {
  let up = 0, down = 0;
  return values.map((v, k) => {
    const from = !isStack ? 0 : v > 0 ? up : down, [place, of] = isStack ? [0, 1] : [k, values.length];
    if (v > 0) up += v; else if (v < 0) down += v;
    if (!v || !layout.isSeen[k]) return null;
    const [top, bottom] = [Math.max(from, from + v), Math.min(from, from + v)].map(layout.y), width = layout.fat / of;
    return painted(shown[k].look, layout.edge(i) + width * place, top, width, bottom - top);
  });
});

// A line with a dot at each value; it has a gap where there is none.
const curves = (layout, shown) => shown.map(({ look: [colour, level] }, k) => {
  if (!layout.isSeen[k]) return null;
  const ys = layout.columns.map(values => tenth(layout.y(values[k])));
  const known = [...ys.keys()].filter(i => isKnown(ys[i]));
  const path = known.map(i => (known.includes(i - 1) ? 'L' : 'M') + layout.middle(i) + ' ' + ys[i]).join('');
  return [stroke(`${colour} l l${level}`, path),
    known.map(i => circle(colour, layout.middle(i), ys[i], ys.length > 40 ? 1 : 2.4))];
});

// A dot for each value, on a band from the least to the greatest.
const dots = layout => layout.columns.map((values, i) => {
  const known = [...new Set(values.filter(isKnown))], middle = layout.middle(i);
  if (!known.length) return null;
  const [high, low] = [layout.y(Math.max(...known)), layout.y(Math.min(...known))];
  return [rectangle('band', middle - 4, high - 4, 8, low - high + 8, { rx: 4 }),
    known.map(v => circle('dot', middle, tenth(layout.y(v)), 3.2))];
});

const MARKS = { stack: bars(true), share: bars(true), group: bars(false), line: curves, dots };

// A line of a chart is a stroke across each column, with a paler one below it.
const strokes = layout => layout.lines.map(line => drawnValues(line).map((v, i) => {
  const beyond = Math.min((layout.slot - layout.fat) / 2, 6), from = layout.edge(i) - beyond;
  const d = `M${tenth(from)} ${tenth(layout.y(number(v)))}H${tenth(layout.edge(i) + layout.fat + beyond)}`;
  return v === null ? null : ['u', line.stroke].map(kind => stroke(kind, d));
}));

const ruleOf = (layout, kind, v) => stroke(kind, `M${tenth(layout.left)} ${tenth(layout.y(v))}H${layout.full - 8}`);

const gridOf = layout => layout.ticks.map(([v, text]) =>
  [ruleOf(layout, v === 0 ? 'z' : 'g', v), label('e', layout.left - 5, layout.y(v) + 3.8, text)]);

// The names of the columns, or of every second, third, .. where they are too long to stand side by side.
function columnNames(labels, layout) {
  const longest = Math.min(8, Math.max(...labels.map(text => text.length)));
  const every = Math.max(1, Math.ceil((longest * LETTER) / layout.slot));
  const room = Math.max(2, Math.floor((layout.slot * every) / LETTER));
  return labels.map((text, i) => (i % every ? null : label('m', layout.middle(i), HEIGHT + TOP + 16,
    text.length > room ? text.slice(0, room - 1) + '\u2026' : text)));
}

let pictures = 0;

// A chart as a picture: { picture, light, layout }, where `light` lies behind the column that is told.
function pictureOf(chart, shown, isWide) {
  const layout = layoutOf(chart, shown, isWide), id = 'picture' + ++pictures, { labels } = chart;
  const light = rectangle('light', 0, TOP, layout.slot, HEIGHT, { visibility: 'hidden' });
  const says = `${several(labels.length, 'column')} from ${labels[0]} to ${labels[labels.length - 1]}, `
    + `${shown.length} series. The numbers are in the table below.`;
  const picture = svg('svg', { class: isWide ? 'chart long' : 'chart', role: 'img',
    viewBox: `0 0 ${layout.full} ${HEIGHT + TOP + FOOT}`, 'aria-labelledby': `${id}t ${id}d` },
  svg('title', { id: id + 't' }, chart.title), svg('desc', { id: id + 'd' }, says), light, gridOf(layout),
  MARKS[layout.style](layout, shown), strokes(layout), ruleOf(layout, 'z', 0), columnNames(labels, layout));
  return { picture, light, layout };
}

// ---- What is told of a column, by the pointer and by the arrow keys

const MOST_TOLD = 16;

// The rows of what is told of column `i`, and the sentence that is read aloud.
function toldOf(chart, shown, layout, i) {
  const isShare = layout.style === 'share', hasValue = shown.filter(one => one.values[i]).reverse();
  const text = one => (isShare ? tenth(layout.columns[i][shown.indexOf(one)]) + '\u00a0%' : short(one.values[i]));
  const told = hasValue.slice(0, MOST_TOLD).map(one => [swatch(one.look), one.name, text(one)]);
  const lines = layout.lines.filter(line => line.values[i] !== null)
    .map(line => [strokeSwatch(line.stroke), line.name, short(line.values[i])]);
  const more = hasValue.length - told.length, isSum = chart.isSummed && !isShare && told.length > 1;
  const others = present([more && ['', more + ' more', ''],
    isSum && ['', 'Sum', short(total(shown.map(one => one.values[i])))]]);
  const rows = [...told, ...others, ...lines].map(([mark, name, value]) =>
    html('tr', null, amount(mark), html('th', { scope: 'row' }, name), amount(value)));
  return { rows, aloud: [chart.labels[i], ...[...told, ...lines].map(line => line.slice(1).join(' '))].join(', ') };
}

// Shows it beside a point of the window, and inside of the window.
function showTip(heading, rows, left, top) {
  const tip = byId('tip');
  tip.replaceChildren(html('b', null, heading), html('table', null, html('tbody', null, rows)));
  const { width, height } = tip.getBoundingClientRect(), right = left + 16;
  tip.style.left = Math.max(4, right + width > innerWidth ? left - width - 16 : right) + 'px';
  tip.style.top = Math.max(4, Math.min(top, innerHeight - height - 8)) + 'px';
}

// Lets pointer and keys tell the columns of a picture that stands in `holder`.
function makeTelling(holder, chart, shown, { picture, light, layout }) {
  const last = chart.labels.length - 1, place = () => picture.getBoundingClientRect();
  let at = null;
  // Tells column `i` beside a point of the window, or nothing where there is no such column.
  const show = (i, left, top) => {
    at = i >= 0 && i <= last ? i : null;
    byId('tip').hidden = at === null;
    light.setAttribute('visibility', at === null ? 'hidden' : 'visible');
    if (at === null) return '';
    light.setAttribute('x', tenth(layout.x(i)));
    const { rows, aloud } = toldOf(chart, shown, layout, i);
    showTip(chart.labels[i], rows, left, top);
    return aloud;
  };
  on(holder, 'pointermove', ({ clientX, clientY }) => {
    const { left, width } = place(), x = ((clientX - left) * layout.full) / width;
    show(Math.floor((x - layout.left) / layout.slot), clientX, clientY);
  });
  for (const event of ['pointerleave', 'blur']) on(holder, event, () => show(-1));
  on(holder, 'keydown', event => {
    const to = { ArrowRight: (at ?? -1) + 1, ArrowLeft: (at ?? last + 1) - 1, Home: 0, End: last }[event.key];
    if (event.key === 'Escape') show(-1);
    if (to === undefined) return;
    event.preventDefault();
    const i = Math.max(0, Math.min(last, to)), { left, top, width } = place();
    const x = left + ((layout.x(i) + layout.slot / 2) * width) / layout.full;
    tell(show(i, x, top + 20));
  });
}
"##;
