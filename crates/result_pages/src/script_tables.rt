//! The second part of the page's script: from the texts to tables, names and looks.

/// The plans of the page, the members of their sets, and what each technology looks like.
pub(crate) const SCRIPT_TABLES: &[u8] = br##"
// ---- From texts to tables

// The fields of a record of CSV (RFC 4180); no name has a line feed, so that a record is a line.
function fieldsOf(line) {
  if (!line.includes('"')) return line.split(',');
  return [...line.matchAll(/(?:^|,)(?:"((?:[^"]|"")*)"|([^,]*))/g)]
    .map(([, inQuotes, plain]) => (inQuotes === undefined ? plain : inQuotes.replaceAll('""', '"')));
}

const linesOf = text => text.split('\n').filter(line => line !== '');

// The lines of a text by their first words.
const wordsOf = text => new Map(linesOf(text).map(line => line.split(/ (.*)/, 2)));

const NUMBERS = ['VALUE', 'LIMIT', 'PRICE', 'PERCENT'];

// A line without a comma names a table; a line of its columns and its records follow. Numbers are millionths, but what
// money of a year is worth has up to nine places and is billionths.
function tablesOf(text) {
  const tables = new Map();
  let rows = null, columns = null, places = 6;
  for (const line of linesOf(text)) {
    const fields = fieldsOf(line);
    if (fields.length === 1) {
      [rows, columns, places] = [[], null, line === 'worth' ? 9 : 6];
      tables.set(line, rows);
    } else if (columns) {
      const valueOf = (name, i) => (NUMBERS.includes(name) ? whole(fields[i], places) : fields[i]);
      rows.push(Object.fromEntries(columns.map((name, i) => [name, valueOf(name, i)])));
    } else {
      columns = fields;
    }
  }
  return tables;
}

// Names as one text, to find things by in a Map.
const keyOf = (...members) => members.join('\n');

// A Map from the keys of rows to the rows that have them.
function grouped(rows, keyOfRow) {
  const groups = new Map();
  for (const row of rows) {
    const key = keyOfRow(row);
    if (!groups.has(key)) groups.set(key, []);
    groups.get(key).push(row);
  }
  return groups;
}

const several = (count, name) => `${count} ${name}${Number(count) === 1 ? '' : 's'}`;

class Plan {
  constructor(element) {
    const [name, said, text, changes] = ['.name', '.said', '.tables', '.changes']
      .map(kind => (element.querySelector(kind) || { textContent: '' }).textContent);
    // The first line of a file of changes has its columns.
    const changed = linesOf(changes), made = changed.length ? several(changed.length - 1, 'change') : '';
    Object.assign(this, { said, text, changed, made, file: name + (made && ' with ' + made) });
    this.tables = tablesOf(text);
    this.index = new Map();
  }

  // What is said by this word, or undefined.
  word(name) { return wordsOf(this.said).get(name); }

  // A fraction that is said, as its two whole numbers.
  fraction(name) {
    const [above, below = 1] = (this.word(name) || '0').split('/');
    return [BigInt(above), BigInt(below)];
  }

  // Whether it is said that no plan costs less; both are fractions in lowest terms.
  get isLeast() { return this.word('cost') !== undefined && this.word('cost') === this.word('bound'); }
  all(table) { return this.tables.get(table) || []; }
  members(set) { return this.all('sets').filter(row => row.SET === set).map(row => row.MEMBER); }

  // The rows of a region and a fuel or emission, or of a region where the table has neither.
  rows(table, region, what) {
    const placeOf = row => keyOf(row.REGION, row.FUEL || row.EMISSION || '');
    if (!this.index.has(table)) this.index.set(table, grouped(this.all(table), placeOf));
    return this.index.get(table).get(keyOf(region, what)) || [];
  }

  // The value of a parameter at these members, or `none` where it has no row.
  value(table, region, what, members, none) {
    const wanted = Object.entries(members);
    const row = this.rows(table, region, what).find(one => wanted.every(([column, member]) => one[column] === member));
    return row ? row.VALUE : none;
  }
}

const plans = [...document.querySelectorAll('.plan')].map(element => new Plan(element)), areTwo = plans.length > 1;
if (areTwo && plans[0].file === plans[1].file)
  plans.forEach((plan, i) => { plan.file += [' (first)', ' (second)'][i]; });
const allRows = table => plans.flatMap(plan => plan.all(table));

// ---- Names: the members of each set, those of the first file and after them those that the second alone has

const SETS = ['REGION', 'TECHNOLOGY', 'FUEL', 'EMISSION', 'MODE_OF_OPERATION', 'TIMESLICE', 'YEAR'];
const names = Object.fromEntries(SETS.map(set => [set, [...new Set(plans.flatMap(plan => plan.members(set)))]]));
const years = names.YEAR.sort((a, b) => a - b), firstYear = years[0], lastYear = years[years.length - 1];

// Who makes and takes which fuel in which region, who makes any, and what is built at a cost, anywhere and in any year.
const regionalKeys = table => new Set(allRows(table).map(row => keyOf(row.REGION, row.TECHNOLOGY, row.FUEL)));
const makers = regionalKeys('OutputActivityRatio'), takers = regionalKeys('InputActivityRatio');
const busy = new Set(allRows('OutputActivityRatio').map(row => row.TECHNOLOGY));
const costly = new Set(allRows('DiscountedCapitalInvestment').filter(row => row.VALUE).map(row => row.TECHNOLOGY));

// ---- Looks: nine colours, each plain, striped and dotted

const COLOURS = 9, LEVELS = 3;
const placedLook = place => ['c' + (place % COLOURS), Math.floor(place / COLOURS) % LEVELS];

// Who stands in which charts: { technology, chart }, in any region and in either plan.
const LINKS = [['OutputActivityRatio', 'FUEL'], ['InputActivityRatio', 'FUEL'], ['EmissionActivityRatio', 'EMISSION']];
const standing = LINKS.flatMap(([table, set]) =>
  allRows(table).map(row => ({ technology: row.TECHNOLOGY, chart: keyOf(table, row[set]) })));

// Technologies that make or take one fuel, or emit one emission, stand in one chart, so no two of them look alike as
// long as there are looks that are free; plain ones come first, and of these the one that is used least. Where none is
// free, it is the one that the fewest charts have already. By names alone, so all pages of one data file agree.
function technologyLooks() {
  const places = [...Array(COLOURS * LEVELS).keys()], used = places.map(() => 0), taken = new Map(), looks = new Map();
  const links = grouped(standing, link => link.technology);
  for (const technology of names.TECHNOLOGY) {
    const charts = [...new Set((links.get(technology) || []).map(link => link.chart))];
    const clashes = places.map(place => charts.filter(chart => (taken.get(chart) || new Set()).has(place)).length);
    const fewest = Math.min(...clashes), free = places.filter(place => clashes[place] === fewest);
    const level = Math.floor(free[0] / COLOURS), plainest = free.filter(place => Math.floor(place / COLOURS) === level);
    const chosen = plainest.reduce((a, b) => (used[b] < used[a] ? b : a));
    used[chosen]++;
    for (const chart of charts) taken.set(chart, (taken.get(chart) || new Set()).add(chosen));
    looks.set(technology, placedLook(chosen));
  }
  return looks;
}

const looks = technologyLooks();
const lookOf = (by, name) => (by === 'TECHNOLOGY' ? looks.get(name) : placedLook(names.REGION.indexOf(name)));
"##;
