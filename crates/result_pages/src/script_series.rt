//! The third part of the page's script: what charts show, as data.

/// Sums of the tables, and the charts that are made of them.
pub(crate) const SCRIPT_SERIES: &[u8] = br##"
// ---- What is shown. A chart is { title, sub, labels, series, lines, note, style, isBars, isSummed }: a series is
// { name, look, values }, a line { name, stroke, values, drawn }, with a value, or null, for each label.

const chartOf = (title, sub, series, more) =>
  ({ title, sub, series, labels: years, lines: [], isSummed: true, ...more });

// What the reader has chosen; the address keeps it.
const state = { region: '', fuel: '', style: 'stack', most: '12', year: lastYear, view: '', open: '' };
state.view = areTwo ? 'change' : 'only';

// Each plan counts with a weight, so that one code shows a plan, either of two, and what changes between them.
const WEIGHTS = { only: [1n], change: [-1n, 1n], first: [1n, 0n], second: [0n, 1n] };
const weights = () => WEIGHTS[state.view];
const alone = plan => plans.map((_, i) => (i === plan ? 1n : 0n));
const isChange = () => state.view === 'change';
const shownPlan = () => plans[state.view === 'second' ? 1 : 0];

// Two values that are the same may be a millionth apart once each is rounded, so less than two isn't told as a change.
const NOISE = 2n;
const withoutNoise = (values, weight) => (weight.filter(w => w).length < 2 ? values
  : values.map(v => (v !== null && abs(v) < NOISE ? 0n : v)));

// The sums of what rows count for, a Map from names to values in the order of the labels: `tell(row, plan)` is
// [name, value] of a row of the regions of a scope that is kept and has a label.
function sumsOf(table, scope, options, tell) {
  const { what = '', over = 'YEAR', labels = years, keep = () => true, weight = weights() } = options;
  const place = new Map(labels.map((label, i) => [label, i])), sums = new Map();
  plans.forEach((plan, i) => {
    for (const region of weight[i] ? scope : [])
      for (const row of plan.rows(table, region, what).filter(one => place.has(one[over]) && keep(one))) {
        const [name, value] = tell(row, plan);
        if (!sums.has(name)) sums.set(name, zeros(labels));
        sums.get(name)[place.get(row[over])] += weight[i] * value;
      }
  });
  return new Map([...sums].map(([name, values]) => [name, withoutNoise(values, weight)]));
}

// The sums of a table's values by a column, and over all but the labels.
const sumsBy = (by, table, scope, options = {}) =>
  sumsOf(table, scope, options, row => [by ? row[by] : '', (options.sign || 1n) * row.VALUE]);
const sumOf = (table, scope, options = {}) =>
  sumsBy(null, table, scope, options).get('') || zeros(options.labels || years);

// Those sums that aren't 0 throughout, in the order of the set.
const seriesOf = (by, sums) => names[by.replace('_', '')].filter(name => isSome(sums.get(name) || []))
  .map(name => ({ name, look: lookOf(by, name), values: sums.get(name) }));

const tableSeries = (by, table, scope, options) => seriesOf(by, sumsBy(by, table, scope, options));

// What comes in and goes out on the routes to regions outside the scope, weighed as the balances weigh it: by
// TradeRoute, to the nearest millionth. A trade above 0 goes out.
function tradeSeries(table, scope, options) {
  const sums = sumsOf(table, scope, options, (row, plan) => {
    const members = { _REGION: row._REGION, YEAR: row.YEAR };
    const flow = nearest(row.VALUE * plan.value('TradeRoute', row.REGION, row.FUEL, members, 0n), UNIT);
    return [scope.includes(row._REGION) ? 'inside' : flow < 0n ? 'imports' : 'exports', -flow];
  });
  return [['imports', 1], ['exports', 2]].map(([name, level]) =>
    ({ name, look: ['cn', level], values: sums.get(name) || [] })).filter(one => isSome(one.values));
}

// What is asked for in the timeslices, and besides in the year as a whole.
function demandOf(scope, fuel, weight = weights()) {
  const [slices, year] = ['Demand', 'AccumulatedAnnualDemand']
    .map(table => sumOf(table, scope, { what: fuel, weight }));
  return slices.map((v, i) => v + year[i]);
}

// The greatest height of a column above 0 or below.
const tallest = chart => most([0n, ...chart.labels.flatMap((_, i) => [1n, -1n].map(way =>
  total(chart.series.map(one => way * (one.values[i] || 0n)).filter(v => v > 0n))))]);

// The first of a list, and how many follow.
const firstOf = list => list[0] + (list.length > 1 ? ` and ${list.length - 1} more` : '');

// Adds lines to a chart. A value more than three times as far from 0 as the greatest bar would press all bars flat, so
// it is told in the note and not drawn; lines that are compared with each other are drawn whole or not at all.
function addLines(chart, lines, areCompared = false) {
  const far = 3n * tallest(chart), isFar = v => v !== null && abs(v) > far, told = [];
  const isNoneDrawn = areCompared && lines.some(line => line.values.some(isFar));
  for (const line of lines) {
    const isLeftOut = v => v !== null && (isNoneDrawn || isFar(v));
    const labels = chart.labels.filter((_, i) => isLeftOut(line.values[i]));
    if (labels.length) told.push(`${line.name} in ${firstOf(labels)}, ${shortRange(line.values.filter(isLeftOut))}`);
    chart.lines.push({ ...line, drawn: line.values.map(v => (isLeftOut(v) ? null : v)) });
  }
  const note = told.length && `Too far above the bars to be drawn: ${told.join('; ')}.`;
  chart.note = present([chart.note, note]).join(' ');
}

// ---- The charts of a fuel: @ is the fuel, # the chosen year

const isMaker = (row, scope, fuel) => makers.has(keyOf(row.REGION, row.TECHNOLOGY, fuel));
const isIdle = row => !busy.has(row.TECHNOLOGY);
const isOutside = (row, scope) => !scope.includes(row._REGION);

// [title, sub, table, more]; what is made is told with what is traded and asked for.
const FUEL_CHARTS = [
  ['Production of @', 'by technology, energy of a year', 'ProductionByTechnologyAnnual', { trade: 'TradeAnnual' }],
  ['Production of @ in #', 'by technology and timeslice, energy', 'ProductionByTechnology', { trade: 'Trade' }],
  ['Use of @', 'by technology, energy of a year', 'UseByTechnologyAnnual', {}],
  ['Use of @ in #', 'by technology and timeslice, energy', 'UseByTechnology', {}],
  ['Trade of @', 'by other region: above 0 goes there, below comes from there', 'TradeAnnual',
    { by: '_REGION', isKept: isOutside }],
  ['Capacity making @', 'by technology', 'TotalCapacityAnnual', { isCapacity: true, isKept: isMaker }],
  ['New capacity making @', 'by technology', 'NewCapacity', { isCapacity: true, isKept: isMaker }],
];

// Capacity of technologies that make nothing, which stands with no fuel.
const IDLE_CHARTS = [['Capacity', 'TotalCapacityAnnual'], ['New capacity', 'NewCapacity']].map(([title, table]) =>
  [title, 'of technologies that make no fuel', table, { isCapacity: true, isKept: isIdle }]);

// Puts capacity last that costs no investment: often there is so much of it, as of imports, that it hides the rest.
function putFreeLast(chart) {
  const [dear, free] = [true, false].map(isDear => chart.series.filter(one => costly.has(one.name) === isDear));
  chart.series = [...dear, ...free];
  if (free.length && dear.length) chart.sub += '; what costs no investment comes last';
}

function tableChart([title, sub, table, { by = 'TECHNOLOGY', trade, isCapacity, isKept = () => true }], scope, fuel) {
  const inSlices = title.includes('#');
  if (inSlices && names.TIMESLICE.length < 2) return null;
  const [over, labels] = inSlices ? ['TIMESLICE', names.TIMESLICE] : ['YEAR', years];
  const keep = row => (!inSlices || row.YEAR === state.year) && isKept(row, scope, fuel);
  const options = { what: isCapacity ? '' : fuel, keep, over, labels }, marks = { '@': fuel, '#': state.year };
  const series = tableSeries(by, table, scope, options);
  const chart = chartOf(title.replace(/[@#]/g, mark => marks[mark]), sub, series, { labels });
  if (isCapacity) putFreeLast(chart);
  if (!trade) return chart;
  series.push(...tradeSeries(trade, scope, options));
  const values = inSlices ? sumOf('Demand', scope, options) : demandOf(scope, fuel);
  if (isSome(values)) chart.lines.push({ name: 'Final demand', stroke: 'dem', values });
  return chart;
}

// Activity in per cent of what all capacity could do in the year, of one plan: by technology, null where there is none.
function fullnessOf(place, scope, keep) {
  const options = { keep, weight: alone(place) };
  const does = sumsBy('TECHNOLOGY', 'TotalTechnologyAnnualActivity', scope, options);
  const could = sumsOf('TotalCapacityAnnual', scope, options, ({ REGION, TECHNOLOGY, VALUE }, plan) =>
    [TECHNOLOGY, VALUE * plan.value('CapacityToActivityUnit', REGION, '', { TECHNOLOGY }, 0n)]);
  return new Map([...could].map(([name, values]) => {
    const activity = does.get(name) || zeros(years);
    return [name, values.map((v, i) => (v > 0n ? nearest(activity[i] * 100n * UNIT * UNIT, v) : null))];
  }));
}

// What changes from one Map of values to another, where both have one.
const changesBetween = (first, second) => new Map([...second].map(([name, values]) => {
  const before = first.get(name) || [], isKnown = i => values[i] !== null && (before[i] ?? null) !== null;
  return [name, withoutNoise(values.map((v, i) => (isKnown(i) ? v - before[i] : null)), weights())];
}));

function fullnessChart(scope, fuel) {
  const parts = place => fullnessOf(place, scope, row => isMaker(row, scope, fuel));
  const sums = isChange() ? changesBetween(parts(0), parts(1)) : parts(plans.indexOf(shownPlan()));
  return chartOf('How full capacity runs: ' + fuel, 'by technology that makes it, per cent of the year',
    seriesOf('TECHNOLOGY', sums), { style: 'line', isSummed: false });
}

// What a unit more of a fuel costs, in money of its year. Promises of two plans, or of two regions, don't add up, so
// there is none of these. A fuel that is balanced in timeslices has a price in each, and else one for the year.
function priceChart(scope, fuel) {
  if (isChange() || scope.length > 1) return null;
  const plan = shownPlan(), rows = plan.rows('prices', scope[0], fuel);
  const inSlices = rows.some(row => row.EQUATION === 'EBa11' && row.PRICE);
  const labels = inSlices ? names.TIMESLICE : ['Year'];
  const series = labels.map((name, i) => ({ name, look: placedLook(i), values: zeros(years) }));
  for (const row of rows.filter(one => (one.EQUATION === 'EBa11') === inSlices)) {
    const worth = plan.value('worth', scope[0], '', { YEAR: row.YEAR }, 0n);
    const price = row.PRICE === null || worth <= 0n ? null : nearest(row.PRICE * 10n ** 9n, worth);
    series[inSlices ? labels.indexOf(row.TIMESLICE) : 0].values[years.indexOf(row.YEAR)] = price;
  }
  const sub = `of a unit more${inSlices ? '' : ' over the year'}, in money of its year`;
  const note = `One unit more asked for${inSlices ? '' : ' in the year'} raises the `
    + `${plan.isLeast ? 'least cost' : 'bound of the cost'} by this much or more.`;
  return chartOf('Price of ' + fuel, sub + (labels.length > 1 ? '; a dot for each timeslice' : ''), series,
    { note, style: 'dots', isSummed: false });
}

const fuelCharts = (scope, fuel) =>
  [...FUEL_CHARTS.map(spec => tableChart(spec, scope, fuel)), fullnessChart(scope, fuel), priceChart(scope, fuel)];

// ---- The charts of costs and emissions

const COSTS = [
  { name: 'Investment', table: 'DiscountedCapitalInvestment', sign: 1n, look: ['k1', 0] },
  { name: 'Running: fixed and variable', table: 'DiscountedOperatingCost', sign: 1n, look: ['k2', 0] },
  { name: 'Emission penalties', table: 'DiscountedTechnologyEmissionsPenalty', sign: 1n, look: ['k3', 0] },
  { name: 'Salvage value, returned', table: 'DiscountedSalvageValue', sign: -1n, look: ['k1', 1] },
];

const discounted = areTwo ? 'each discounted to its own first year' : 'discounted to the beginning of ' + firstYear;

function costChart(scope) {
  const series = COSTS.map(({ name, table, sign, look }) => ({ name, look, values: sumOf(table, scope, { sign }) }));
  const net = { name: 'Net (TotalDiscountedCost)', stroke: 'net', values: sumOf('TotalDiscountedCost', scope) };
  return chartOf('Cost by year and kind', discounted, series.filter(one => isSome(one.values)),
    { lines: [net], isSummed: false,
      note: 'Net is rounded by itself, so it may differ from the sum of the kinds by some millionths.' });
}

function technologyCostChart(scope) {
  const sums = COSTS.map(({ table, sign }) => sumsBy('TECHNOLOGY', table, scope, { sign }));
  const series = names.TECHNOLOGY.map(name => {
    const [invested, running, penalties, salvage] = sums.map(sum => total(sum.get(name) || []));
    return { name, look: ['cb', 0], values: withoutNoise([invested + salvage, running, penalties], weights()) };
  }).filter(one => isSome(one.values)).sort((a, b) => order(abs(total(b.values)), abs(total(a.values))));
  return chartOf(isChange() ? 'What the change of cost is made of' : 'What the cost is made of',
    'by technology, all years, discounted; greatest first', series,
    { labels: ['Investment less salvage', 'Running', 'Emission penalties'], isBars: true });
}

// The yearly limits of a region's technologies: what the emissions from elsewhere leave of them; null where none is.
const yearlyLimits = (plan, region, emission) => years.map(YEAR => {
  const limit = plan.value('AnnualEmissionLimit', region, emission, { YEAR }, null);
  return limit === null ? null : limit - plan.value('AnnualExogenousEmission', region, emission, { YEAR }, 0n);
});

function periodNote(plan, region, emission) {
  const exogenous = plan.value('ModelPeriodExogenousEmission', region, emission, {}, 0n);
  const all = total(sumOf('AnnualEmissions', [region], { what: emission })) + exogenous;
  const limit = plan.value('ModelPeriodEmissionLimit', region, emission, {}, null);
  return `All years together: ${short(all)}`
    + (limit === null ? '; no limit over all years.' : `, of a limit of ${short(limit)}.`);
}

function emissionChart(scope, emission) {
  const chart = chartOf((isChange() ? 'Emissions of ' : 'Emissions: ') + emission, 'by technology and year',
    tableSeries('TECHNOLOGY', 'AnnualTechnologyEmission', scope, { what: emission }));
  if (isChange()) {
    addLines(chart, plans.map((plan, i) => ({ name: plan.file, stroke: ['dem', 'lim'][i],
      values: sumOf('AnnualEmissions', scope, { what: emission, weight: alone(i) }) })), true);
  } else if (scope.length === 1) {
    const limits = yearlyLimits(shownPlan(), scope[0], emission);
    chart.note = periodNote(shownPlan(), scope[0], emission);
    if (limits.some(v => v !== null)) addLines(chart, [{ name: 'Yearly limit', stroke: 'lim', values: limits }]);
  }
  return chart;
}

const regionChart = (title, sub, table, what) =>
  chartOf(title, sub, tableSeries('REGION', table, names.REGION, { what }));

// ---- What is told in words

const LIMITS = {
  TCC1: 'Capacity of @ at most', TCC2: 'Capacity of @ at least', RM3: 'Reserve margin', RE4: 'Renewable target',
  NCC1: 'New capacity of @ at most', NCC2: 'New capacity of @ at least', E8: 'Emissions of @ at most',
  AAC2: 'Activity of @ at most', AAC3: 'Activity of @ at least', E9: 'Emissions of @, all years, at most',
  TAC2: 'Activity of @, all years, at most', TAC3: 'Activity of @, all years, at least',
};

// What looser limits save, a limit with all its years; the greatest saving first.
function limitsOf(scope) {
  const rows = shownPlan().all('limits').filter(row => scope.includes(row.REGION) && row.PRICE !== null);
  const nameOf = row => row.TECHNOLOGY || row.EMISSION;
  return [...grouped(rows, row => keyOf(row.EQUATION, row.REGION, nameOf(row))).values()].map(parts => ({
    text: (scope.length > 1 ? parts[0].REGION + ': ' : '')
      + (LIMITS[parts[0].EQUATION] || parts[0].EQUATION + ' @').replace('@', () => nameOf(parts[0])),
    times: [...new Set(parts.map(row => row.YEAR))].filter(year => year),
    bounds: parts.map(row => row.LIMIT).filter(v => v !== null),
    unit: total(parts.map(row => abs(row.PRICE))),
    percent: total(parts.map(row => abs(row.PERCENT || 0n))),
  })).sort((a, b) => order(b.percent, a.percent) || order(b.unit, a.unit));
}

// Who makes most of a fuel in a year, { name, made, all }; undefined where nobody does.
function mostOf(scope, fuel, year) {
  const options = { what: fuel, labels: [year] };
  const made = [...tradeSeries('TradeAnnual', scope, options).filter(one => one.name === 'imports'),
    ...tableSeries('TECHNOLOGY', 'ProductionByTechnologyAnnual', scope, options)]
    .map(({ name, values: [value] }) => [name, value]);
  const values = made.map(([, value]) => value), greatest = most([0n, ...values]);
  return greatest > 0n ? { name: made[values.indexOf(greatest)][0], made: greatest, all: total(values) } : undefined;
}

// Who makes most of a fuel; and where that one makes all of it out of a single fuel, who makes most of that, and so on.
function makersOf(scope, fuel, year) {
  const told = [];
  for (let next = fuel; next !== undefined && !told.some(one => one.fuel === next);) {
    const greatest = mostOf(scope, next, year);
    if (!greatest) break;
    told.push({ fuel: next, name: greatest.name, share: share(greatest.made, greatest.all) });
    const taken = names.FUEL.filter(one => scope.some(region => takers.has(keyOf(region, greatest.name, one))));
    next = greatest.made === greatest.all && taken.length === 1 ? taken[0] : undefined;
  }
  return told;
}

// Fuels that are asked for, in either plan, and after them all others.
function fuelsOf(scope) {
  const isAsked = fuel => plans.some((_, i) => isSome(demandOf(scope, fuel, alone(i))));
  const asked = names.FUEL.filter(isAsked);
  return [...asked, ...names.FUEL.filter(fuel => !asked.includes(fuel))];
}
"##;
