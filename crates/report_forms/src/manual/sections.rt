//! The sections of docs/rules.md, in the order of the codes. `.ci/explain --write` makes this file from that page: change the page.

pub(crate) const SECTIONS: [&str; 34] = [
    "G1: not an object

A GeoJSON object is required at the place, and there is another value. The text itself must be an object, and so must each
element of `features` and `geometries`, and the `geometry` of a Feature, which may also be `null`. The place is that of the
value.

    $ printf '[{\"type\":\"Feature\",\"geometry\":null,\"properties\":{}}]' | geolint
    broken G1 at 0: not an object

Mended:

    {\"type\":\"FeatureCollection\",\"features\":[{\"type\":\"Feature\",\"geometry\":null,\"properties\":{}}]}

Usual causes:

- A bare list of features, as many web services return it. Put it into a FeatureCollection, as here.
- `null` in `features`, left there by a filter. Remove it.
- A geometry as text: `\"geometry\":\"POINT(9.43 54.79)\"`, or JSON inside a string. Write the object itself.
- `[]`, `\"\"` or `false` as `geometry` where there is no location. Write `null`.

RFC 7946, sections 2, 3, 3.1.8, 3.2 and 3.3.
",
    "G2: type missing

The object at the place has no member `type`. The place is that of the object.

    $ printf '{\"type\":\"Feature\",\"geometry\":{\"x\":9.43,\"y\":54.79},\"properties\":{}}' | geolint
    broken G2 at 29: type missing

Mended:

    {\"type\":\"Feature\",\"geometry\":{\"type\":\"Point\",\"coordinates\":[9.43,54.79]},\"properties\":{}}

Usual causes:

- Another format. Objects with `x` and `y`, `rings`, `paths` or `attributes` are Esri's JSON: export as GeoJSON.
- A name that is not quite `type`: `Type`, `@type`, `kind`.
- A response of a web service that has the GeoJSON inside, such as `{\"status\":\"ok\",\"data\":{...}}`. Take the inner object out.

RFC 7946, section 3.
",
    "G3: type not allowed here

The value of `type` is not one of those that are allowed there. Upper and lower case differ. The place is that of the value
of `type`.

| Object | Types allowed |
|---|---|
| the text itself | the seven geometry types, `Feature`, `FeatureCollection` |
| element of `features` | `Feature` |
| `geometry`; element of `geometries` | the seven geometry types: `Point`, `MultiPoint`, `LineString`, `MultiLineString`, `Polygon`, `MultiPolygon`, `GeometryCollection` |

    $ printf '{\"type\":\"point\",\"coordinates\":[9.43,54.79]}' | geolint
    broken G3 at 8: type not allowed here

Mended:

    {\"type\":\"Point\",\"coordinates\":[9.43,54.79]}

Usual causes:

- Wrong case: `point`, `POLYGON`, `Linestring`, `featureCollection`.
- A bare geometry in `features`. Put it into a Feature.
- A FeatureCollection in `features`, where files were merged. Put its features there, one by one.
- A Feature in `geometries` or as `geometry`. Put its geometry there.
- A type of another format, such as `Topology` (TopoJSON), `Circle` or `Envelope`. The nine types cannot be extended: convert,
  or write the outline as a Polygon.
- A type of your own, such as `\"type\":\"cafe\"`. Write `\"type\":\"Feature\"`, and put the other one into `properties`.
- `null`, which PostGIS writes where a `LEFT JOIN` finds no row. Leave such rows out of `json_agg`, by `FILTER (WHERE id IS NOT NULL)`.

RFC 7946, sections 1.4, 3, 3.1, 3.2, 3.3 and 7.
",
    "G4: coordinates missing

A Point, MultiPoint, LineString, MultiLineString, Polygon or MultiPolygon has no member `coordinates`. The place is that of
the geometry.

    $ printf '{\"type\":\"Feature\",\"geometry\":{\"type\":\"Point\"},\"properties\":{\"name\":\"depot\"}}' | geolint
    broken G4 at 29: coordinates missing

Mended:

    {\"type\":\"Feature\",\"geometry\":null,\"properties\":{\"name\":\"depot\"}}

A geometry with `\"coordinates\":[]` is accepted too, whichever of these types it has.

Usual causes:

- The location is not known. Write `null` for the whole geometry, as here.
- The position is in separate members, such as `\"lat\":54.79,\"lon\":9.43`. Write `\"coordinates\":[9.43,54.79]`.
- A name that is not quite `coordinates`: `coords`, `coordinate`, `Coordinates`.

RFC 7946, section 3.1.
",
    "G5: geometries missing

A GeometryCollection has no member `geometries`. The place is that of the GeometryCollection.

    $ printf '{\"type\":\"GeometryCollection\",\"coordinates\":[]}' | geolint
    broken G5 at 0: geometries missing

Mended:

    {\"type\":\"GeometryCollection\",\"geometries\":[]}

Usual causes:

- A program that writes `coordinates` for every geometry. In a GeometryCollection that member says nothing.
- The name in the singular, `geometry`.

RFC 7946, section 3.1.8.
",
    "G6: geometry missing

A Feature has no member `geometry`. The member is required even if there is no location; its value is then `null`. The place
is that of the Feature.

    $ printf '{\"type\":\"Feature\",\"properties\":{\"name\":\"archive\"}}' | geolint
    broken G6 at 0: geometry missing

Mended:

    {\"type\":\"Feature\",\"geometry\":null,\"properties\":{\"name\":\"archive\"}}

Usual causes:

- A table in which a row has no location.
- A program that leaves out each member whose value is `null`. Make it write this one.
- `coordinates` directly in the Feature. Put a geometry around it: `\"geometry\":{\"type\":\"Point\",\"coordinates\":[9.43,54.79]}`.

RFC 7946, section 3.2.
",
    "G7: properties missing

A Feature has no member `properties`. The member is required even if there is nothing to say; its value is then `{}` or
`null`. The place is that of the Feature. If `geometry` is missing too, G6 is reported first.

    $ printf '{\"type\":\"Feature\",\"geometry\":{\"type\":\"Point\",\"coordinates\":[9.43,54.79]}}' | geolint
    broken G7 at 0: properties missing

Mended:

    {\"type\":\"Feature\",\"geometry\":{\"type\":\"Point\",\"coordinates\":[9.43,54.79]},\"properties\":null}

Usual causes:

- A feature that was drawn and never described, or a geometry that was wrapped by hand.
- A program that leaves out each member that is empty or `null`.
- The properties are directly in the Feature, or in `attributes`. Put them into `properties`.

RFC 7946, section 3.2.
",
    "G8: features missing

A FeatureCollection has no member `features`. The place is that of the FeatureCollection.

    $ printf '{\"type\":\"FeatureCollection\",\"count\":0}' | geolint
    broken G8 at 0: features missing

Mended:

    {\"type\":\"FeatureCollection\",\"count\":0,\"features\":[]}

Usual causes:

- A search without a hit, written by a program that leaves out empty lists. Write `[]`.
- The list has another name: `items`, `results`, `data`.
- The object is one Feature. Then its `type` is `Feature`.

RFC 7946, section 3.3.
",
    "G9: member forbidden by section 7.1

An object has a member that belongs to objects of another type. The table Members says which must not be
there. The place is that of the member's name.

    $ printf '{\"type\":\"FeatureCollection\",\"properties\":{\"source\":\"survey\"},\"features\":[]}' | geolint
    broken G9 at 28: member forbidden by section 7.1

Mended, with a name that RFC 7946 does not use:

    {\"type\":\"FeatureCollection\",\"metadata\":{\"source\":\"survey\"},\"features\":[]}

Usual causes:

- `properties` in a FeatureCollection, for what is said of the whole file. Give the member another name.
- `properties` in a geometry. Put the geometry into a Feature, and the properties beside it.
- `coordinates` in a Feature that has its geometry as well. Remove them.
- `features` in a Feature, for its parts. Put all of them into one FeatureCollection.

`coordinates` in a GeometryCollection and `geometries` in another geometry are not forbidden. They are ignored.

RFC 7946, section 7.1.
",
    "G10: name repeated

An object has one of these names twice: `type`, `coordinates`, `geometries`, `geometry`, `properties`, `features`, `bbox`,
`id`. The place is that of the later name.

    $ printf '{\"type\":\"Feature\",\"geometry\":null,\"properties\":{},\"properties\":{\"name\":\"pier\"}}' | geolint
    broken G10 at 50: name repeated

Mended:

    {\"type\":\"Feature\",\"geometry\":null,\"properties\":{\"name\":\"pier\"}}

Some programs take the first of two members, others the last, so the file has two meanings. Find out which one is meant,
and remove the other. geolint checks the object by the first.

Names are compared after their escapes are undone: `\"\\u0074ype\"` is `type`. Other names may be repeated, and so may all
names inside `properties` and foreign members.

Usual causes:

- A line that was copied by hand and not removed again.
- A text that was put together from parts, each with its own `type` or `bbox`.
- Two sets of properties that were joined as text.

RFC 8259, section 4, says that names should be unique. That these eight are refused is this program's choice.
",
    "G11: coordinates of the wrong shape

The `coordinates` do not have the arrays and numbers that the type asks for. The place is that of the value that is not
right: an array is required there, or a number.

| Type | `coordinates` | Example |
|---|---|---|
| `Point` | one position | `[9.43,54.79]` |
| `MultiPoint` | array of positions | `[[9.43,54.79],[9.44,54.79]]` |
| `LineString` | array of two or more positions | `[[9.43,54.79],[9.44,54.79]]` |
| `MultiLineString` | array of such lines | `[[[9.43,54.79],[9.44,54.79]]]` |
| `Polygon` | array of linear rings, the exterior one first | `[[[9.43,54.79],[9.44,54.79],[9.44,54.8],[9.43,54.79]]]` |
| `MultiPolygon` | array of such arrays | `[[[[9.43,54.79],[9.44,54.79],[9.44,54.8],[9.43,54.79]]]]` |

An empty array is accepted as `coordinates` of each type. RFC 7946, section 3.1, lets it stand for no geometry.

    $ printf '{\"type\":\"Point\",\"coordinates\":{\"lat\":54.79,\"lon\":9.43}}' | geolint
    broken G11 at 30: coordinates of the wrong shape

Mended, with the longitude first:

    {\"type\":\"Point\",\"coordinates\":[9.43,54.79]}

Usual causes, each in `{\"type\":TYPE,\"coordinates\":COORDINATES}`:

| Cause | Type | `coordinates` | geolint says | Mended |
|---|---|---|---|---|
| object for a position | `Point` | `{\"lat\":54.79,\"lon\":9.43}` | G11 at 30 | `[9.43,54.79]` |
| numbers in quotes | `Point` | `[\"9.43\",\"54.79\"]` | G11 at 31 | `[9.43,54.79]` |
| text for a position | `Point` | `\"9.43,54.79\"` | G11 at 30 | `[9.43,54.79]` |
| height not known | `Point` | `[9.43,54.79,null]` | G11 at 42 | `[9.43,54.79]` |
| time after the height | `Point` | `[9.43,54.79,12,\"10:42\"]` | G11 at 45 | `[9.43,54.79,12]` |
| no location | `Point` | `null` | G11 at 30 | `[]` |
| one position for several | `MultiPoint` | `[9.43,54.79]` | G11 at 36 | `[[9.43,54.79]]` |
| all numbers in one row | `LineString` | `[9.43,54.79,9.44,54.79]` | G11 at 36 | `[[9.43,54.79],[9.44,54.79]]` |
| `null` in a line | `LineString` | `[[9.43,54.79],null,[9.44,54.79]]` | G11 at 49 | `[[9.43,54.79],[9.44,54.79]]` |

With one level of brackets too few or too many, the rule can also be G12, G13 or G14, since geolint counts the elements
of the value where a position, a line or a ring is required:

| Cause | Type | `coordinates` | geolint says | Mended |
|---|---|---|---|---|
| too many | `Point` | `[[9.43,54.79]]` | G12 at 30 | `[9.43,54.79]` |
| too many | `LineString` | `[[[9.43,54.79],[9.44,54.79]]]` | G13 at 35 | `[[9.43,54.79],[9.44,54.79]]` |
| too few | `MultiLineString` | `[[9.43,54.79],[9.44,54.79]]` | G11 at 42 | `[[[9.43,54.79],[9.44,54.79]]]` |
| too few | `Polygon` | `[[9.43,54.79],[9.44,54.79],[9.44,54.8],[9.43,54.79]]` | G14 at 33 | `[[[9.43,54.79],[9.44,54.79],[9.44,54.8],[9.43,54.79]]]` |
| too many | `Polygon` | `[[[[9.43,54.79],[9.44,54.79],[9.44,54.8],[9.43,54.79]]]]` | G14 at 33 | `[[[9.43,54.79],[9.44,54.79],[9.44,54.8],[9.43,54.79]]]` |
| too few | `MultiPolygon` | `[[[9.43,54.79],[9.44,54.79],[9.44,54.8],[9.43,54.79]]]` | G14 at 39 | `[[[[9.43,54.79],[9.44,54.79],[9.44,54.8],[9.43,54.79]]]]` |

A position may have more than three elements, though RFC 7946 advises against it. Each of them must be a number.

RFC 7946, sections 3.1 and 3.1.1 to 3.1.7.
",
    "G12: position of fewer than two elements

A position needs a longitude and a latitude. The place is that of the position.

    $ printf '{\"type\":\"Point\",\"coordinates\":[9.43]}' | geolint
    broken G12 at 30: position of fewer than two elements

Mended:

    {\"type\":\"Point\",\"coordinates\":[9.43,54.79]}

Usual causes:

- The latitude was not known and was left out. Write `\"geometry\":null` for the Feature.
- Both numbers in one string: `[\"9.43 54.79\"]`. Write two numbers.
- An empty position `[]` in a list, kept for later. Remove it.
- One level of brackets too many in a Point: `[[9.43,54.79]]`.

RFC 7946, section 3.1.1.
",
    "G13: line of fewer than two elements

A LineString, or one part of a MultiLineString, needs two or more positions. The place is that of the line.

    $ printf '{\"type\":\"LineString\",\"coordinates\":[[9.43,54.79]]}' | geolint
    broken G13 at 35: line of fewer than two elements

Mended:

    {\"type\":\"Point\",\"coordinates\":[9.43,54.79]}

Usual causes:

- A track of one fix, or a device that was switched on and off. Write a Point, or leave the line out.
- A line that was clipped or simplified until one position was left, or none (`[]` in a MultiLineString). Remove it.
- One level of brackets too many in a LineString: `[[[9.43,54.79],[9.44,54.79]]]`.

RFC 7946, sections 3.1.4 and 3.1.5.
",
    "G14: ring of fewer than four elements

A linear ring needs four or more positions, since the last is the first once more: a triangle has four. The place is that
of the ring.

    $ printf '{\"type\":\"Polygon\",\"coordinates\":[[[9.43,54.79],[9.44,54.79],[9.44,54.8]]]}' | geolint
    broken G14 at 33: ring of fewer than four elements

Mended:

    {\"type\":\"Polygon\",\"coordinates\":[[[9.43,54.79],[9.44,54.79],[9.44,54.8],[9.43,54.79]]]}

Usual causes:

- A triangle that is not closed, as here. Write the first position again at the end.
- A small area that was rounded or simplified until two corners were left. Remove the hole, or the whole polygon.
- An empty ring in a polygon without area, `[[]]`. Write `\"coordinates\":[]`. In a MultiPolygon an empty polygon `[]` is
  accepted, and an empty ring in it is not.
- One level of brackets too few in a Polygon or MultiPolygon, so that each position is taken for a ring. See
  G11.

RFC 7946, section 3.1.6.
",
    "G15: ring not closed

The last position of a linear ring must be the same as its first. The place is that of the ring.

    $ printf '{\"type\":\"Polygon\",\"coordinates\":[[[9.43,54.79],[9.44,54.79],[9.44,54.8],[9.43,54.8]]]}' | geolint
    broken G15 at 33: ring not closed

Mended:

    {\"type\":\"Polygon\",\"coordinates\":[[[9.43,54.79],[9.44,54.79],[9.44,54.8],[9.43,54.8],[9.43,54.79]]]}

The values of the first three numbers are compared, exactly. Their spelling does not count: `9.50`, `9.5` and `95e-1` are
the same, and `9.43` and `9.430000000000001` are not. They are compared only where each position of the ring is right.

Usual causes:

- A drawing tool or a program that closes the ring on the screen and does not write the last position.
- A last position that was rounded or computed differently from the first. Copy the first.
- A height in one of the two: `[9.43,54.79,12]` and `[9.43,54.79]`. Write both alike.
- A hole in the same array as its exterior ring. Give each ring an array of its own.

RFC 7946, section 3.1.6.
",
    "G16: number beyond the profile

One of the first three numbers of a position has more digits, is greater or is nearer to zero than geolint reads. What it reads
is its profile. The place is that of the number.

    $ printf '{\"type\":\"Point\",\"coordinates\":[9.42999999999999971578290569595992565155029296875,54.79]}' | geolint
    broken G16 at 31: number beyond the profile

Mended:

    {\"type\":\"Point\",\"coordinates\":[9.43,54.79]}

geolint takes a number exactly: as a whole number with no zero at its end, times a power of ten. `1.50` is 15 times 10^-1.
It refuses a number in these cases:

- The whole number has more than 30 digits.
- The power of ten is above 400 or below -400. `1e400` is accepted, and `1e401` and `1e-401` are refused.
- The exponent is written as more than 1000 or less than -1000.

Zero is accepted however it is written. The numbers after the third of a position, and those of `bbox`, `id`, `properties`
and foreign members, have no limit.

Usual causes:

- A binary number printed with all its digits, as by Java's `new BigDecimal(9.43)`, Python's `Decimal(9.43)` or `%.40f` in
  C. Print the shortest decimal that gives it back; that has 17 digits or fewer.
- A projection or an average computed with more digits than a map needs. Seven decimal places are about a centimetre.
- A number that is nearly zero, such as `4e-500`. Write 0.

RFC 7946 has no limit; its section 11.2 speaks of precision. RFC 8259, section 6, allows a program to set limits, and these
are this program's.
",
    "G17: not an array

The `features` of a FeatureCollection or the `geometries` of a GeometryCollection must be an array. The place is that of
the value.

    $ printf '{\"type\":\"FeatureCollection\",\"features\":null}' | geolint
    broken G17 at 39: not an array

Mended:

    {\"type\":\"FeatureCollection\",\"features\":[]}

Usual causes:

- `null` for an empty list, as Go prints a slice that was never filled. Write `[]`.
- `null` for no rows, as PostgreSQL's `json_agg` answers. Write `coalesce(json_agg(..), '[]')`.
- A single Feature that is not in a list, often after a conversion from XML. Put brackets around it.
- A list printed as an object, `{\"0\":...,\"2\":...}`, as PHP does where elements were taken out. Use `array_values` first.

RFC 7946, sections 3.1.8 and 3.3.
",
    "G18: properties neither object nor null

The `properties` of a Feature must be an object or `null`. The place is that of the value.

    $ printf '{\"type\":\"Feature\",\"geometry\":null,\"properties\":[]}' | geolint
    broken G18 at 47: properties neither object nor null

Mended:

    {\"type\":\"Feature\",\"geometry\":null,\"properties\":{}}

Usual causes:

- An empty array of PHP, which is printed as `[]`. Print it as an object: `(object)[]`.
- A list of pairs, `[{\"key\":\"name\",\"value\":\"pier\"}]`. Write `{\"name\":\"pier\"}`.
- An object inside a string, `\"{\\\"name\\\":\\\"pier\\\"}\"`. Write the object itself.
- `\"\"`, `0` or `false` for nothing. Write `null`.

RFC 7946, section 3.2.
",
    "G19: id neither string nor number

The `id` of a Feature must be a string or a number. The place is that of the value. In other objects `id` is a foreign
member and may be any JSON.

    $ printf '{\"type\":\"Feature\",\"id\":null,\"geometry\":null,\"properties\":{}}' | geolint
    broken G19 at 23: id neither string nor number

Mended:

    {\"type\":\"Feature\",\"geometry\":null,\"properties\":{}}

Usual causes:

- `null` for a feature that has no key yet. Leave the member out.
- A key of a database that is an object, such as `{\"$oid\":\"65f0\"}` of MongoDB, or a list of two keys. Write it as one string.

RFC 7946, section 3.2.
",
    "G20: bbox or its element of the wrong kind

A bounding box must be an array of numbers. The place is that of the value of `bbox` if it is not an array, and otherwise
that of the element that is not a number.

    $ printf '{\"type\":\"Point\",\"coordinates\":[9.43,54.79],\"bbox\":[\"9.43\",\"54.79\",\"9.43\",\"54.79\"]}' | geolint
    broken G20 at 51: bbox or its element of the wrong kind

Mended:

    {\"type\":\"Point\",\"coordinates\":[9.43,54.79],\"bbox\":[9.43,54.79,9.43,54.79]}

Usual causes:

- Numbers in quotes, as here, or all of them in one string: `\"9.43,54.79,9.43,54.79\"`.
- `null`, or an array of `null`, for the bounding box of nothing. Leave the member out.
- An object: `{\"west\":9.42,\"south\":54.78,\"east\":9.45,\"north\":54.8}`. Write `[9.42,54.78,9.45,54.8]`.

RFC 7946, section 5.
",
    "G21: bbox length odd or below 4

A bounding box has two numbers for each dimension: four are west, south, east, north; six are west, south, least height,
east, north, greatest height. The place is that of the array. geolint does not check whether the positions have as many
dimensions.

    $ printf '{\"type\":\"FeatureCollection\",\"bbox\":[9.42,54.78,9.45,54.8,12],\"features\":[]}' | geolint
    broken G21 at 35: bbox length odd or below 4

Mended:

    {\"type\":\"FeatureCollection\",\"bbox\":[9.42,54.78,9.45,54.8],\"features\":[]}

Usual causes:

- Five numbers, with one height for both corners. Leave the height out, or write it for each corner.
- Two corners as positions, `[[9.42,54.78],[9.45,54.8]]`: an array of two elements. Write the four numbers in one row.
- An empty array for the bounding box of nothing. Leave the member out.

RFC 7946, section 5.
",
    "W1: byte order mark

The text begins with the bytes EF BB BF. JSON must be written without them. geolint passes over them, but many readers
refuse the file at its first byte.

    $ printf '\\357\\273\\277{\"type\":\"Point\",\"coordinates\":[9.43,54.79]}' | geolint
    valid
    warning W1 count 1 first 0: byte order mark

Mended, without the mark:

    $ printf '\\357\\273\\277{\"type\":\"Point\",\"coordinates\":[9.43,54.79]}' | tail -c +4 | geolint
    valid

Usual causes:

- An editor or a spreadsheet that saves as \"UTF-8 with BOM\". Save as \"UTF-8\".
- A PowerShell or .NET program. Ask it for UTF-8 without a byte order mark.

RFC 8259, section 8.1.
",
    "W2: ring runs the wrong way

The exterior ring of a polygon runs clockwise, or a hole runs counterclockwise. By the right-hand rule the polygon lies to
the left of each of its rings. The place is that of the ring.

    $ printf '{\"type\":\"Polygon\",\"coordinates\":[[[9.43,54.79],[9.43,54.8],[9.44,54.8],[9.44,54.79],[9.43,54.79]]]}' | geolint
    valid
    warning W2 count 1 first 33: ring runs the wrong way

Mended, with the positions of the ring in the other order:

    {\"type\":\"Polygon\",\"coordinates\":[[[9.43,54.79],[9.44,54.79],[9.44,54.8],[9.43,54.8],[9.43,54.79]]]}

What goes wrong: programs that go by the winding take the outside for the inside. A small district is then drawn as the
whole world with a hole in it (d3-geo, BigQuery and other systems on the sphere), a hole as a filled polygon, and a search
by area finds everything but what it should.

Usual causes:

- Data from Shapefiles and from other formats in which exterior rings run clockwise. Let the converter turn the rings:
  `ogr2ogr -lco RFC7946=YES`, `mapshaper -o rfc7946`, or the rewind tool of your library.
- Polygons drawn by hand, one this way and one that way.
- A polygon over the antimeridian, whose longitudes jump from 180 to -180. Do not reverse its ring: cut it there.

A ring over the antimeridian seems to go around the rest of the world, whichever way it runs:

    $ printf '{\"type\":\"Polygon\",\"coordinates\":[[[179,-17],[-179,-17],[-179,-16],[179,-16],[179,-17]]]}' | geolint
    valid
    warning W2 count 1 first 33: ring runs the wrong way

Cut along the meridian into two polygons (RFC 7946, section 3.1.9; `ogr2ogr -lco RFC7946=YES` does), each on its side:

    {\"type\":\"MultiPolygon\",\"coordinates\":[[[[179,-17],[180,-17],[180,-16],[179,-16],[179,-17]]],[[[-180,-17],[-179,-17],[-179,-16],[-180,-16],[-180,-17]]]]}

Which way a ring runs is checked in the plane of longitudes and latitudes, on values cut after seven decimal places. A ring
that bounds no area there gives no warning, and neither does one with a position out of range (W5).

RFC 7946, sections 3.1.6 and 3.1.9.
",
    "W3: more than three numbers in a position

The position has a fourth number or more. The standard says that they should not be there, and leaves open what they mean.
The place is that of the position.

    $ printf '{\"type\":\"Point\",\"coordinates\":[9.43,54.79,12,1700000000]}' | geolint
    valid
    warning W3 count 1 first 30: more than three numbers in a position

Mended, with the time where it belongs:

    {\"type\":\"Feature\",\"geometry\":{\"type\":\"Point\",\"coordinates\":[9.43,54.79,12]},\"properties\":{\"time\":1700000000}}

What goes wrong: most programs drop the fourth number silently; some refuse the file.

Usual causes:

- Measures, such as a time or a distance along a track (XYZM). Put them into `properties`, for a line as an array with one
  element for each position.
- Several positions in one array: `[9.43,54.79,9.44,54.8]`. Give each its own brackets.

RFC 7946, section 3.1.1.
",
    "W4: more than seven decimal places

One of the first three numbers of a position has more than seven decimal places. Zeros at its end do not count. The place
is that of the number.

    $ printf '{\"type\":\"Point\",\"coordinates\":[9.430000000000001,54.79]}' | geolint
    valid
    warning W4 count 1 first 31: more than seven decimal places

Mended:

    {\"type\":\"Point\",\"coordinates\":[9.43,54.79]}

Six places are about ten centimetres, and seven about one. More places say nothing about a location on the ground. They make a
file up to twice as large, and up to twice as slow to send and to read.

Usual causes:

- A program that prints all digits of a binary number. Round on writing: `ogr2ogr -lco COORDINATE_PRECISION=7`,
  `mapshaper -o precision=0.0000001`, `ST_AsGeoJSON(geom, 7)`.
- Coordinates that were computed, as by a projection. The digits beyond the seventh are noise.

Round before the file is compared or signed, and round the first and the last position of a ring alike
(G15).

RFC 7946, section 11.2.
",
    "W5: position out of range

The first number of a position is not from -180 to 180, or the second not from -90 to 90. Values are cut after seven
decimal places before they are checked. The place is that of the position.

    $ printf '{\"type\":\"Point\",\"coordinates\":[35.68,139.69]}' | geolint
    valid
    warning W5 count 1 first 30: position out of range

Mended:

    {\"type\":\"Point\",\"coordinates\":[139.69,35.68]}

What goes wrong: the point is not drawn, or drawn far away: off the map, at the pole, or on the other side of the world.

Usual causes:

- Latitude before longitude, as here. Longitude comes first. If both numbers are below 90, no program can see it.
- Coordinates of another reference system, such as metres of a national grid or of Web Mercator: `[1050000,7320000]`.
  Convert to longitude and latitude (WGS 84): `ogr2ogr -t_srs EPSG:4326`.
- Longitudes that go on beyond 180 across the antimeridian, such as `[190,52]`. Cut the geometry there and write `[-170,52]`.
- Degrees that are multiplied, such as `94300000` for 9.43.

RFC 7946, sections 3.1.1, 3.1.9 and 4.
",
    "W6: empty coordinates

The value of `coordinates` is an empty array. The standard lets a reader treat such a geometry as none. The place is that of
the array.

    $ printf '{\"type\":\"Point\",\"coordinates\":[]}' | geolint
    valid
    warning W6 count 1 first 30: empty coordinates

Mended, as a Feature without a location:

    {\"type\":\"Feature\",\"geometry\":null,\"properties\":{}}

What goes wrong: programs that take the first position of each geometry fail, and a map zooms to nowhere.

Usual causes:

- A geometry that was clipped or simplified until nothing was left.
- A place that is not known yet. Write `null` for the geometry.

RFC 7946, section 3.1.
",
    "W7: collection in a collection

An element of the `geometries` of a GeometryCollection is itself a GeometryCollection. The standard advises against it. The
place is that of the inner object.

    $ printf '{\"type\":\"GeometryCollection\",\"geometries\":[{\"type\":\"GeometryCollection\",\"geometries\":[]}]}' | geolint
    valid
    warning W7 count 1 first 43: collection in a collection

Mended, with the geometries of both in one list:

    {\"type\":\"GeometryCollection\",\"geometries\":[]}

What goes wrong: databases and map servers refuse it, or drop the inner geometries.

Usual causes:

- Collections that were joined. Put their geometries into one list.

RFC 7946, section 3.1.8.
",
    "W8: bbox south above north

In a bounding box of four numbers the second, its south, is greater than the fourth, its north; in one of six, the second
is greater than the fifth. Values are cut after seven decimal places before they are compared. A number beyond the limits of
G16, or of 10^10 or more, is not compared. The place is that of the array.

    $ printf '{\"type\":\"FeatureCollection\",\"bbox\":[9.42,54.8,9.45,54.78],\"features\":[]}' | geolint
    valid
    warning W8 count 1 first 35: bbox south above north

Mended:

    {\"type\":\"FeatureCollection\",\"bbox\":[9.42,54.78,9.45,54.8],\"features\":[]}

What goes wrong: a search by area skips the file, since nothing lies in such a box.

Usual causes:

- The corners north-west and south-east for south-west and north-east.
- Latitude before longitude: `[54.78,9.42,54.8,9.45]` gives no warning, and `[54.78,9.45,54.8,9.42]` does.

West above east is right: such a box crosses the antimeridian.

RFC 7946, section 5.
",
    "W9: crs is no longer used

The object has a member `crs`. GeoJSON of 2008 named the reference system there. Today's standard has only longitudes and
latitudes in WGS 84, and a reader may ignore the member. The place is that of its name, and each one counts.

    $ printf '{\"type\":\"Point\",\"crs\":{\"type\":\"name\",\"properties\":{\"name\":\"EPSG:25832\"}},\"coordinates\":[527673,6071832]}' | geolint
    valid
    warning W5 count 1 first 87: position out of range
    warning W9 count 1 first 16: crs is no longer used

Mended, converted to WGS 84:

    {\"type\":\"Point\",\"coordinates\":[9.43,54.79]}

What goes wrong: programs that ignore `crs` draw the data in the sea near Africa, or nowhere. If it names CRS 84 or
EPSG 4326, the data are right, and only the member has to be removed.

Usual causes:

- An export of a GIS that writes the older format. Ask for RFC 7946: `ogr2ogr -lco RFC7946=YES`.

RFC 7946, section 4 and appendix B.1.
",
    "J1: syntax

The byte at the place is not allowed there; everything before it could begin a JSON text.

    $ printf '{\"type\":\"Point\",\"coordinates\":[9.43,54.79],}' | geolint
    not JSON at 43: syntax

Here a comma comes before the closing brace. The place is that of the brace, since another member could have followed
the comma. Without the comma the text is right:

    {\"type\":\"Point\",\"coordinates\":[9.43,54.79]}

Usual causes (these short texts are not GeoJSON: mended, they are JSON and break G2):

| Cause | Example | Place | Mended |
|---|---|---:|---|
| comma after the last member or element | `{\"a\":1,}` | 7 | `{\"a\":1}` |
| comma missing | `{\"a\":1 \"b\":2}` | 7 | `{\"a\":1,\"b\":2}` |
| comma for a decimal point | `{\"depth\":41,5}` | 12 | `{\"depth\":41.5}` |
| single quotes | `{'a':1}` | 1 | `{\"a\":1}` |
| name without quotes | `{a:1}` | 1 | `{\"a\":1}` |
| Python's words | `{\"a\":True}` | 5 | `{\"a\":true}` |
| `NaN` or `Infinity` | `{\"depth\":NaN}` | 9 | `{\"depth\":null}` |
| number that begins with `.` or `+` | `{\"depth\":.5}` | 9 | `{\"depth\":0.5}` |
| leading zero | `{\"depth\":05}` | 10 | `{\"depth\":5}` |
| single backslash | `{\"file\":\"C:\\maps\"}` | 12 | `{\"file\":\"C:\\\\maps\"}` |
| comment | `{} // a note` | 3 | `{}` |
| two texts in one file | `{}{}` | 2 | `{}` in a file of its own each; if each line is a text, check the file with `geolint-files --ndjson` |
| file of another kind, such as HTML | `<html>` | 0 | see Files of another kind |

Two causes cannot be seen:

- **A line break or tab inside a string.** Write `\\n` or `\\t` instead.
- **Letters that are not in UTF-8.** A file in Latin-1 or Windows-1252 usually fails at its first letter beyond ASCII or at
  the byte after it. Convert it: `iconv -f WINDOWS-1252 -t UTF-8 map.geojson > mended.geojson`.

RFC 8259, sections 2 to 8.

### Files of another kind

`head -c 8 map.geojson | od -An -tx1` shows the first bytes of a file:

| First bytes | What the file is | Place | What turns it into a GeoJSON text |
|---|---|---:|---|
| `3c` (`<`) | HTML: a page that says what went wrong, or asks to log in | 0 | fetch it again: `curl -fL -o map.geojson URL` fails where the answer is an error |
| `1f 8b` | compressed by gzip | 0 | `gzip -dc < map.geojson > mended.geojson` |
| `ff fe` or `fe ff` | UTF-16 | 0 | `iconv -f UTF-16 -t UTF-8 map.geojson > mended.geojson` |
| `7b 00` | UTF-16 without a mark | 1 | `iconv -f UTF-16LE -t UTF-8 map.geojson > mended.geojson` |
| `1e` (RS) | a sequence of texts (RFC 8142) | 0 | it is right as it is: `geolint-files --seq map.geojson` checks a text sequence |
| `7b` (`{`), and more texts in further lines | newline-delimited: one text in each line | that of the second text | it is right as it is: `geolint-files --ndjson map.geojson` checks each line |

The last two hold many texts, usually one Feature each. With a name that ends with `.geojsons` or `.ndjson`, `geolint-files`
checks them without an option. The report is about the first text that is not valid, and `--every` lists each of them:

    geolint-files --ndjson --every map.geojson

This puts an RS before each line, which makes a text sequence of a newline-delimited file:

    grep -a '[^[:space:]]' map.geojson | sed 's/^/\\x1e/' > map.geojsons

This makes one FeatureCollection of the Features of a sequence or of a newline-delimited file:

    tr -d '\\036' < map.geojson | jq -sc '{type:\"FeatureCollection\",features:.}' > mended.geojson

`jq` holds all of them in memory (see The path). If each is on one line, this does the same for a file of any
size:

    { printf '{\"type\":\"FeatureCollection\",\"features\":['
      grep -a '[^[:space:]]' map.geojson | tr -d '\\036' | paste -sd, -
      printf ']}'; } > mended.geojson
",
    "J2: truncated

The text is right as far as it goes, and then it ends. The place is its length.

    $ printf '{\"type\":\"Point\",\"coordinates\":[9.43,54.79]' | geolint
    not JSON at 42: truncated

Usually a download, a copy or the program that wrote the file was stopped: fetch or write the file again. If only brackets are missing
at the end, add them:

    {\"type\":\"Point\",\"coordinates\":[9.43,54.79]}

An empty file is truncated at 0, and with `--seq` valid, with no records. RFC 8259, section 2.
",
    "J3: too deep

The byte at the place opens an array or object inside 256 that are open. The limit is this program's; RFC 8259, section 9,
allows one.

    $ printf '[%.0s' $(seq 257) | geolint
    not JSON at 256: too deep

GeoJSON itself needs few levels: the numbers of a MultiPolygon in a FeatureCollection are inside eight. Look for
GeometryCollections inside one another and for deep values in `properties`, and flatten them.
",
    "J4: too long

The text is right up to the place and goes on, but no further byte is allowed: after as many bytes as `--max-bytes` says, or
after 2^60.

    $ printf '{\"type\":\"Point\",\"coordinates\":[9.43,54.79]}' | geolint stdin --max-bytes 10
    not JSON at 10: too long

Either the file is longer than it should be, or the limit is too low. Without the option no real file is too long, so
something sends bytes to geolint without end.
",
];
