//! The first part of the page's script: numbers, and the checksum of a text.

/// Whole numbers of millionths, how they are written, and SHA-256.
pub(crate) const SCRIPT_NUMBERS: &[u8] = br##"
'use strict';

// Draws a page of one plan, or of two that are compared, from the texts that stand in it. It reads nothing else, asks
// nothing of any network, and makes every element by its name and every text as text: no markup is ever parsed.

// ---- Numbers: whole millionths, so that what is shown adds up

const UNIT = 1000000n, MINUS = '\u2212';

const abs = v => (v < 0n ? -v : v);
const order = (a, b) => (a > b ? 1 : a < b ? -1 : 0);
const isSome = values => values.some(v => v);
const total = values => values.reduce((sum, v) => sum + (v || 0n), 0n);
const zeros = labels => labels.map(() => 0n);
const least = values => values.reduce((a, v) => (v < a ? v : a));
const most = values => values.reduce((a, v) => (v > a ? v : a));

// A decimal as a whole number of its last place; null for a text that is none, as an empty field.
function whole(text, places) {
  if (!/^-?\d+(\.\d+)?$/.test(text)) return null;
  const [front, after = ''] = text.split('.');
  return BigInt(front + after.slice(0, places).padEnd(places, '0'));
}

// a / b to the nearest, halves away from 0; b is above 0.
function nearest(a, b) {
  const size = (2n * abs(a) + b) / (2n * b);
  return a < 0n ? -size : size;
}

// a / b in millionths, rounded up; b is above 0. Division drops the rest, which rounds up what is below 0.
const roundedUp = (a, b) => (a > 0n ? (a * UNIT + b - 1n) / b : (a * UNIT) / b);

// All six places, for tables of numbers; and in them 0 as 0, so that it is told from what is rounded to it.
const decimal = v => (v < 0n ? '-' : '') + abs(v) / UNIT + '.' + String(abs(v) % UNIT).padStart(6, '0');
const cell = v => (v === null ? '' : v === 0n ? '0' : decimal(v));

// Thin spaces between groups of three digits, from five digits on.
const spaced = digits => (digits.length < 5 ? digits : digits.replace(/\B(?=(\d{3})+$)/g, '\u202f'));

// Few places, for reading.
function short(v) {
  const size = abs(v), places = size < UNIT ? 3 : size < 10n * UNIT ? 2 : size < 1000n * UNIT ? 1 : 0;
  const rounded = nearest(size, 10n ** BigInt(6 - places));
  if (rounded === 0n) return v === 0n ? '0' : decimal(v);
  const digits = String(rounded).padStart(places + 1, '0'), point = digits.length - places;
  return (v < 0n ? MINUS : '') + spaced(digits.slice(0, point)) + (places ? '.' + digits.slice(point) : '');
}

const shortRange = values => [...new Set([short(least(values)), short(most(values))])].join(' to ');

// A part in per cent; neither 0 nor 100 is told of what is none of them.
function share(part, all) {
  if (all <= 0n) return '';
  const percent = nearest(100n * part, all);
  const text = percent === 0n && part > 0n ? '<1' : percent === 100n && part < all ? '>99' : String(percent);
  return text.replace('-', MINUS) + '\u00a0%';
}

// ---- The checksum of a text (FIPS 180-4): crypto.subtle isn't there in every page that is opened as a file

const PRIMES = [];
for (let n = 2; PRIMES.length < 64; n++) if (PRIMES.every(prime => n % prime)) PRIMES.push(n);

// The first 32 bits of a root after its point, of the 50 that a number has.
const bitsOf = root => Math.floor((root % 1) * 2 ** 32);
const ROUNDS = PRIMES.map(prime => bitsOf(Math.cbrt(prime)));
const turned = (word, bits) => (word >>> bits) | (word << (32 - bits));

// The sixteen words of a block at `at`, and the 48 that are made of them.
function scheduleOf(view, at) {
  const words = new Uint32Array(64);
  for (let i = 0; i < 64; i++) {
    const a = words[i - 15], b = words[i - 2];
    words[i] = i < 16 ? view.getUint32(at + 4 * i) : words[i - 16] + (turned(a, 7) ^ turned(a, 18) ^ (a >>> 3))
      + words[i - 7] + (turned(b, 17) ^ turned(b, 19) ^ (b >>> 10));
  }
  return words;
}

function hashOfBlock(before, words) {
  let hash = before;
  for (let i = 0; i < 64; i++) {
    const [a, b, c, d, e, f, g, h] = hash;
    const first = h + (turned(e, 6) ^ turned(e, 11) ^ turned(e, 25)) + ((e & f) ^ (~e & g)) + ROUNDS[i] + words[i];
    const second = (turned(a, 2) ^ turned(a, 13) ^ turned(a, 22)) + ((a & b) ^ (a & c) ^ (b & c));
    hash = [(first + second) | 0, a, b, c, (d + first) | 0, e, f, g];
  }
  return hash.map((word, i) => (word + before[i]) | 0);
}

function sha256(text) {
  const bytes = new TextEncoder().encode(text), padded = new Uint8Array(64 * Math.ceil((bytes.length + 9) / 64));
  const view = new DataView(padded.buffer);
  padded.set(bytes);
  padded[bytes.length] = 0x80;
  view.setBigUint64(padded.length - 8, 8n * BigInt(bytes.length));
  let hash = PRIMES.slice(0, 8).map(prime => bitsOf(Math.sqrt(prime)));
  for (let at = 0; at < padded.length; at += 64) hash = hashOfBlock(hash, scheduleOf(view, at));
  return hash.map(word => (word >>> 0).toString(16).padStart(8, '0')).join('');
}
"##;
