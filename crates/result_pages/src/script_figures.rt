//! The fifth part of the page's script: a figure, which is a picture with its legend, its numbers and its buttons.

/// Figures, tables of numbers, and what can be taken away of a chart.
pub(crate) const SCRIPT_FIGURES: &[u8] = br##"
// ---- The numbers of a chart

// What stands in its table and in its CSV: the columns, the series, and below them sums and lines.
function numbersOf(chart) {
  const columns = [...chart.labels, ...(chart.isBars ? ['Sum'] : [])];
  const rows = chart.series.map(({ name, values }) =>
    ({ name, values: chart.isBars ? [...values, total(values)] : values }));
  const isSum = chart.isSummed && (rows.length > 1 || chart.isBars);
  const sum = { name: 'Sum', values: columns.map((_, i) => total(rows.map(row => row.values[i]))) };
  return { columns, rows, last: [...(isSum ? [sum] : []), ...chart.lines] };
}

const quoted = text => (/[",]/.test(text) ? '"' + text.replaceAll('"', '""') + '"' : text);

function csvOf(chart) {
  const { columns, rows, last } = numbersOf(chart);
  const records = [['Name', ...columns], ...[...rows, ...last].map(row => [row.name, ...row.values.map(cell)])];
  return records.map(record => record.map(quoted).join(',') + '\r\n').join('');
}

// The rows of a table, of the columns from one place to another.
const numberRows = ({ rows, last }, from, to) => [[rows], [last, 'sum']].map(([list, kind]) =>
  list.map(({ name, values }) => rowOf(name, values.slice(from, to).map(v => amount(cell(v))), kind)));

const scrolled = (text, content) =>
  html('div', { class: 'scroll', tabindex: 0, role: 'region', 'aria-label': text }, content);

// The ways in which a click on a heading sorts, one after another: names up first, numbers down first, then as it was.
const WAYS = { names: [1, -1, 0], numbers: [-1, 1, 0] };

// The table of a chart, sorted by a click on a heading; sums and lines stay below.
function sortedTable(chart) {
  const numbers = numbersOf(chart), valueOf = row => (by < 0 ? row.name : row.values[by] || 0n);
  let by = -1, clicks = -1;
  const table = tableOf(null, ['Name', ...numbers.columns].map((text, i) =>
    button(text, { 'aria-label': 'Sort by ' + text }, () => {
      [by, clicks] = [i - 1, by === i - 1 ? clicks + 1 : 0];
      fill();
    })), []);
  const headings = table.querySelectorAll('th');
  function fill() {
    const way = clicks < 0 ? 0 : WAYS[by < 0 ? 'names' : 'numbers'][clicks % 3];
    const rows = way ? [...numbers.rows].sort((a, b) => way * order(valueOf(a), valueOf(b))) : numbers.rows;
    table.tBodies[0].replaceChildren(...numberRows({ ...numbers, rows }).flat());
    headings.forEach((heading, i) => heading.setAttribute('aria-sort',
      !way || by !== i - 1 ? 'none' : way > 0 ? 'ascending' : 'descending'));
  }
  fill();
  return scrolled('Numbers: ' + chart.title, table);
}

const PAPER_COLUMNS = 8;

// The table for paper, in blocks of so many columns as a sheet is wide.
function paperOf(chart) {
  const numbers = numbersOf(chart), { columns } = numbers, blocks = [];
  for (let from = 0, to = PAPER_COLUMNS; from < columns.length; from = to, to += PAPER_COLUMNS)
    blocks.push(tableOf(null, ['', ...columns.slice(from, to)], numberRows(numbers, from, to)));
  return html('div', { class: 'paper' }, blocks);
}

// The folded tables of the page, { details, chart }; each is filled in when it is first opened, printed or taken away.
const folds = [];

const fillWith = (kind, make) => ({ details, chart }) => {
  if (!details.querySelector(kind)) details.append(make(chart));
};
const fillNumbers = fillWith('.scroll', sortedTable), fillPaper = fillWith('.paper', paperOf);

function numbersFold(chart) {
  const details = html('details', { open: state.open ? '' : null },
    html('summary', null, 'Numbers', html('span', { class: 'vh' }, ': ' + chart.title)));
  const fold = { details, chart };
  folds.push(fold);
  if (state.open) fillNumbers(fold);
  return on(details, 'toggle', () => fillNumbers(fold));
}

// ---- A chart as a file of its own

const OWN_STYLES = {
  'rect, circle, path': ['fill', 'stroke', 'stroke-width', 'stroke-dasharray', 'stroke-linejoin'],
  text: ['fill', 'font-family', 'font-size', 'font-weight', 'text-anchor'],
};

// Gives the elements of a picture as attributes what the style sheet says of them, since the sheet doesn't go along.
function takeStyles(picture) {
  for (const [kinds, styles] of Object.entries(OWN_STYLES))
    for (const element of picture.querySelectorAll(kinds)) {
      const computed = getComputedStyle(element), own = styles.map(name => [name, computed.getPropertyValue(name)]);
      for (const [name, value] of own) element.setAttribute(name, value);
    }
}

// What stands in the legend of a picture: series and lines, as far as they can be seen, { name, look or stroke }.
function legendItems(chart, shown, layout) {
  const lines = layout.lines.filter(line => drawnValues(line).some(v => v !== null));
  return { seen: chart.style === 'dots' ? [] : shown.filter((_, k) => layout.isSeen[k]), lines };
}

// The picture between its title and its legend. It stands in the page while its styles are taken.
function svgFileOf(chart, shown, isWide) {
  const { picture, light, layout } = pictureOf(chart, shown, isWide), row = i => HEIGHT + TOP + FOOT + 34 + 16 * i;
  light.remove();
  const { seen, lines } = legendItems(chart, shown, layout), count = seen.length, names = [...seen, ...lines];
  const height = row(names.length), patterns = document.querySelector('.defs defs').cloneNode(true);
  const file = svg('svg', { class: 'chart', viewBox: `0 0 ${layout.full} ${height}`, width: layout.full, height },
    patterns, rectangle('ground', 0, 0, layout.full, height), label('heading', 10, 18, chart.title),
    svg('g', { transform: 'translate(0 24)' }, ...picture.childNodes),
    seen.map((one, i) => painted(one.look, 10, row(i), 11, 11)),
    lines.map((line, i) => stroke(line.stroke, `M10 ${row(count + i) + 5.5}h11`)),
    names.map((one, i) => label(null, 27, row(i) + 9.5, one.name)));
  document.body.append(file);
  takeStyles(file);
  file.remove();
  return new XMLSerializer().serializeToString(file);
}

// ---- Pictures of bars, a bar for the sum of each series

function barsOf(chart) {
  const sums = chart.series.map(one => total(one.values)), all = total(sums), longest = most([1n, ...sums.map(abs)]);
  const wanted = Number(state.most), count = wanted && sums.length > wanted + 1 ? wanted : sums.length;
  const bar = (v, colour) => svg('svg', { viewBox: '0 0 100 11', preserveAspectRatio: 'none', 'aria-hidden': 'true' },
    svg('rect', { class: v < 0n ? 'cn' : colour, width: Number((1000n * abs(v)) / longest) / 10, height: 11 }));
  const row = (name, v, colour) => rowOf(name, [html('td', { class: 'b' }, bar(v, colour)), amount(short(v)),
    isChange() ? null : html('td', { class: 'pc' }, share(v, all))]);
  const rows = chart.series.slice(0, count).map((one, i) => row(one.name, sums[i], one.look[0]));
  if (count < sums.length) rows.push(row(`other (${sums.length - count})`, total(sums.slice(count)), 'co'));
  const table = tableOf('bars', ['Name', 'Bar', 'Amount', ...(isChange() ? [] : ['Share'])], rows);
  table.tHead.className = 'vh';
  return table;
}

// ---- Figures

// The legend of a picture: a click takes a series out of it or puts it back.
function legendOf(view, shown, layout) {
  const { chart, hidden, legend } = view, { seen, lines } = legendItems(chart, shown, layout);
  const click = name => {
    if (!hidden.delete(name)) hidden.add(name);
    draw(view);
    const again = [...legend.querySelectorAll('button')].find(one => one.textContent === name);
    if (again) again.focus();
  };
  const named = chart.series.filter(one => seen.includes(one) || hidden.has(one.name));
  const unseen = chart.style === 'dots' ? 0 : shown.length - seen.length;
  return [
    ...named.map(({ name, look }) =>
      button([swatch(look), name], { 'aria-pressed': String(!hidden.has(name)) }, () => click(name))),
    ...seen.filter(one => !chart.series.includes(one)).map(one => [swatch(one.look), one.name]),
    ...lines.map(line => [strokeSwatch(line.stroke), line.name]),
    ...(unseen ? [`${unseen} too small to be seen`] : []),
  ].map(content => html('li', null, content));
}

// Draws the picture and the legend of a view: { chart, place, legend, hidden, isWide }, where `hidden` has the names
// that the reader took out.
function draw(view) {
  const { chart, place, legend, hidden, isWide } = view;
  if (chart.isBars) return place.replaceChildren(barsOf(chart));
  const shown = shownSeries(chart, hidden), drawing = pictureOf(chart, shown, isWide);
  const holder = html('div', { class: 'holder', tabindex: 0, role: 'group',
    'aria-label': chart.title + '. The arrow keys read the columns.' }, drawing.picture);
  makeTelling(holder, chart, shown, drawing);
  place.replaceChildren(holder);
  legend.replaceChildren(...legendOf(view, shown, drawing.layout));
}

function widen(view, { currentTarget }) {
  view.isWide = !view.isWide;
  currentTarget.closest('figure').classList.toggle('wide', view.isWide);
  currentTarget.setAttribute('aria-pressed', String(view.isWide));
  draw(view);
}

const copy = ({ chart }) => navigator.clipboard.writeText(csvOf(chart).replaceAll('\r\n', '\n'))
  .then(() => tell('Copied.'), () => tell('Not copied.'));
const saveCsv = ({ chart }) => save(chart.title + '.csv', csvOf(chart), 'text/csv');
const saveSvg = ({ chart, hidden, isWide }) =>
  save(chart.title + '.svg', svgFileOf(chart, shownSeries(chart, hidden), isWide), 'image/svg+xml');

// The buttons of a figure: the text, what is read aloud, what is done, and whether it can be.
const TOOLS = [
  ['Wide', 'Wide', widen, chart => !chart.isBars],
  ['Copy', 'Copy the numbers', copy, () => navigator.clipboard],
  ['CSV', 'Download the numbers', saveCsv, () => true],
  ['SVG', 'Download the picture', saveSvg, chart => !chart.isBars],
];

const toolsOf = view => html('div', { class: 'tools' },
  TOOLS.filter(([, , , isFor]) => isFor(view.chart)).map(([text, aloud, act]) =>
    button(text, { 'aria-label': `${aloud}: ${view.chart.title}` }, event => act(view, event))));

const asChange = chart => ({ ...chart, title: chart.isBars ? chart.title : chart.title + ': change',
  sub: `${chart.sub}; ${plans[1].file} minus ${plans[0].file}` });

const captionOf = (title, sub) => html('figcaption', null, html('h4', null, title), paragraph('sub', sub));
const noteOf = text => (text ? paragraph('note', text) : null);

// A chart between its title and its buttons; null where all is 0.
function figureOf(plain) {
  if (!plain || !plain.series.some(one => isSome(one.values))) return null;
  const chart = isChange() ? asChange(plain) : plain;
  const place = html('div', { class: 'place' }), legend = html('ul', { class: 'legend' });
  const view = { chart, place, legend, hidden: new Set(), isWide: false };
  draw(view);
  return html('figure', null, captionOf(chart.title, chart.sub), place, legend, noteOf(chart.note), toolsOf(view),
    numbersFold(chart));
}

// A table for reading, and a figure of one, as wide as the page.
const glance = (title, headings, rows) => scrolled(title, tableOf('glance', headings, rows));
const tellingFigure = (title, sub, headings, rows, note) => html('figure', { class: 'wide' }, captionOf(title, sub),
  rows.length ? glance(title, headings, rows) : null, noteOf(note));
"##;
